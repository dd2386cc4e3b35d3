//! Why a query has no answer.
use lq_filter::PrepareFault;
use matching_rows::MatchFault;
use std::alloc::{AllocError, AllocFailed};
use vl_row::Text;

/// Why a search has no answer.
#[derive(Drop)]
pub enum SearchFault {
    /// 2^32 rows hold, or more.
    ManyRows,
    /// The total of the function of `stats` with this name is not a 64-bit integer.
    Overflow { name: Text },
    /// Memory ran out.
    Memory,
}

impl From<AllocError> for SearchFault {
    ghost use Rattle.std.specs.Prelude.{◌≡◌};
    ghost use Rattle.query_run.specs.declared.fault.SearchFault.TheVariants.{Memory};

    ghost from_gives = { λ _ fault. fault ≡ Memory };

    fn from(_: AllocError) -> SearchFault {
        SearchFault::Memory
    }
}

impl<T: Drop> From<AllocFailed<T>> for SearchFault {
    ghost use Rattle.std.specs.Prelude.{◌≡◌};
    ghost use Rattle.query_run.specs.declared.fault.SearchFault.TheVariants.{Memory};

    ghost from_gives = { λ _ fault. fault ≡ Memory };

    fn from(_: AllocFailed<T>) -> SearchFault {
        SearchFault::Memory
    }
}

impl From<MatchFault> for SearchFault {
    ghost use Rattle.std.specs.Prelude.{◌≡◌};
    ghost use Rattle.query_run.specs.Answer.{gathering_fault};

    ghost from_gives = { λ fault given. given ≡ gathering_fault fault };

    fn from(fault: MatchFault) -> SearchFault {
        match fault {
            MatchFault::ManyRows => SearchFault::ManyRows,
            MatchFault::Memory => SearchFault::Memory,
        }
    }
}

/// Why a query has no records.
#[derive(Drop)]
pub enum RunFault {
    /// The regular expression with this number, counted from 0 in the order of the text, is the first that cannot be
    /// read.
    RegexRefused { nth: u32 },
    /// 2^32 rows hold, or more.
    ManyRows,
    /// The total of the function of `stats` with this name is not a 64-bit integer.
    Overflow { name: Text },
    /// Memory ran out.
    Memory,
}

impl From<AllocError> for RunFault {
    ghost use Rattle.std.specs.Prelude.{◌≡◌};
    ghost use Rattle.query_run.specs.declared.fault.RunFault.TheVariants.{Memory};

    ghost from_gives = { λ _ fault. fault ≡ Memory };

    fn from(_: AllocError) -> RunFault {
        RunFault::Memory
    }
}

impl From<PrepareFault> for RunFault {
    ghost use Rattle.std.specs.Prelude.{◌≡◌};
    ghost use Rattle.query_run.specs.Answer.{preparing_fault};

    ghost from_gives = { λ fault given. given ≡ preparing_fault fault };

    fn from(fault: PrepareFault) -> RunFault {
        match fault {
            PrepareFault::RegexRefused { nth } => RunFault::RegexRefused { nth },
            PrepareFault::Memory => RunFault::Memory,
        }
    }
}

impl From<SearchFault> for RunFault {
    ghost use Rattle.std.specs.Prelude.{◌≡◌};
    ghost use Rattle.query_run.specs.Answer.{searching_fault};

    ghost from_gives = { λ fault given. given ≡ searching_fault fault };

    fn from(fault: SearchFault) -> RunFault {
        match fault {
            SearchFault::ManyRows => RunFault::ManyRows,
            SearchFault::Overflow { name } => RunFault::Overflow { name },
            SearchFault::Memory => RunFault::Memory,
        }
    }
}
