//! What words can ask for.
use vl_row::Text;

/// What the words of a command line ask for.
#[derive(Drop)]
pub enum Command {
    /// The answer to a query over the rows of the input.
    Pipe {
        /// The names of the fields that are the labels of each row, with commas between them, as they were written.
        stream_fields: Option<Text>,
        /// The text of the query.
        query: Text,
    },
    /// The rows of the input, kept in a directory.
    Load {
        /// The directory of the database, as it was written.
        dir: Text,
        /// The names of the fields that are the labels of each row, as for `Pipe`.
        stream_fields: Option<Text>,
    },
    /// The answer to a query over the rows that a directory keeps.
    Query {
        /// The directory of the database, as it was written.
        dir: Text,
        /// The text of the query.
        query: Text,
    },
    /// A trial of the database on rows that it makes itself.
    Trial {
        /// What the rows are made from: 0 to 2^63 - 1.
        seed: u64,
        /// How many rows are made: 0 to 1,000,000.
        rows: u64,
    },
    /// A server on one address or two, which keeps its logs in a directory.
    Serve {
        /// The directory of the database, as it was written.
        dir: Text,
        /// The address for HTTP, as it was written.
        http: Text,
        /// The address for syslog, as it was written, if syslog is served too.
        syslog: Option<Text>,
        /// How many workers each address has: 1 to 64 with one address, 1 to 32 with two.
        workers: u32,
    },
}
