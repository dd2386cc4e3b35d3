//! The header of a message (RFC 5424, section 6.2).
ghost use Rattle.std.specs.Prelude.{◌≡◌, IfOk, IfErr, IfSome, IfNone, List, ℕ, ℤ, Option, ◌≤◌, ◌↔◌, IsTrue, length};
ghost use Rattle.std.specs.Option.{option_map};
ghost use Rattle.syslog_in.specs.Message.{NameTexts, IsTime, IsTimestamp, nil};
ghost use Rattle.syslog_in.specs.Parts.{IsMessageFault, IsPart, Stands, version, timestamp};
ghost use Rattle.syslog_in.specs.DataReading.{behind_part, has_form, ends_with_offset};
ghost use Rattle.syslog_in.specs.HeaderReading.{AreNames, HeaderAt, LacksNameIn, is_priority, priority_at};
ghost use Rattle.syslog_in.specs.NamesRead.{texts_of};

use crate::fault::MessageFault;
use crate::part::{cut, name, past, visible};
use crate::scan::length_at;
use time_text::{TimeFault, read_moment};

/// The names of a header, as they are spelled.
#[derive(Clone, Copy)]
pub(crate) struct Names<'a> {
    pub(crate) hostname: &'a str,
    pub(crate) app_name: &'a str,
    pub(crate) proc_id: &'a str,
    pub(crate) msg_id: &'a str,
}

/// What a header says.
#[derive(Clone, Copy)]
pub(crate) struct Header<'a> {
    pub(crate) priority: u8,
    /// The moment, unless it is nil.
    pub(crate) time: Option<i64>,
    pub(crate) names: Names<'a>,
}

/// Returns whether this many digits, which say this number, are a number from 0 to 191 without zeros ahead.
fn is_priority(digits: usize, number: usize, inside: &[u8]) -> bool
    requires { digits ≤ length inside.now }
    ensures { result ≡ is_priority digits number inside.now }
{
    digits >= 1 && (digits == 1 || inside[0] != b'0') && number <= 191
}

/// Returns the number of PRI, and what follows it.
#[tactic(auto, unfolding(crate::specs::HeaderReading::priority_at))]
pub(crate) fn priority(text: &[u8]) -> Option<(u8, &[u8])>
    ensures { option_map (λ x. (x.0, x.1.now)) result ≡ priority_at text.now }
{
    let Some(inside) = past(text, b'<') else {
        return None;
    };
    let Some((digits, number)) = length_at(inside) else {
        return None;
    };
    if !is_priority(digits, number, inside) {
        return None;
    }
    match past(&inside[digits..], b'>') {
        Some(rest) => Some((number as u8, rest)),
        None => None,
    }
}

/// Returns what stands after the version.
pub(crate) fn past_version(text: &[u8]) -> Option<&[u8]>
    ensures some { IfSome result (λ rest. Stands (IsPart version) text.now rest.now) }
    ensures rest { IfSome result (λ rest. rest.now ≡ behind_part text.now) }
    ensures none { IfNone result ((rest : List ℕ) → Stands (IsPart version) text.now rest → ⊥) }
{
    let (part, rest) = cut(text);
    match part {
        [b'1'] => Some(rest),
        _ => None,
    }
}

fn ends_with_offset(text: &[u8]) -> bool
    ensures { result ≡ ends_with_offset text.now }
{
    matches!(text, [.., b'Z'] | [.., b'+' | b'-', _, _, _, _, _])
}

/// Returns whether the text has a `T` where RFC 3339 has a mark, and ends with an offset.
fn has_form(text: &[u8]) -> bool
    ensures { result ≡ has_form text.now }
{
    text.len() > 10 && text[10] == b'T' && ends_with_offset(text)
}

/// Returns the moment of a timestamp that is not nil.
fn moment(part: &[u8]) -> Option<i64>
    ensures some { IfSome result (λ moment. IsTimestamp part.now moment) }
    ensures only { IfSome result (λ moment. (other : ℤ) → IsTimestamp part.now other → other ≡ moment) }
    ensures none { IfNone result ((moment : ℤ) → IsTimestamp part.now moment → ⊥) }
{
    let Some(text) = visible(part) else {
        return None;
    };
    if !has_form(part) {
        return None;
    }
    match read_moment(text) {
        Ok(moment) => Some(moment),
        Err(TimeFault::NotATime) => None,
        Err(TimeFault::OutOfRange) => None,
    }
}

fn is_nil(part: &[u8]) -> bool
    ensures { IsTrue result ↔ (part.now ≡ nil) }
{
    matches!(part, [b'-'])
}

/// Returns the moment of the timestamp, unless it is nil, and what stands after it.
pub(crate) fn time(text: &[u8]) -> Option<(Option<i64>, &[u8])>
    ensures some { IfSome result (λ x. Stands (λ part. IsTime part x.0) text.now x.1.now) }
    ensures only { IfSome result (λ x. (time : Option ℤ) (rest : List ℕ)
        → Stands (λ part. IsTime part time) text.now rest → (time ≡ x.0) × (rest ≡ x.1.now)) }
    ensures none { IfNone result ((rest : List ℕ) → Stands (IsPart timestamp) text.now rest → ⊥) }
{
    let (part, rest) = cut(text);
    if is_nil(part) {
        return Some((None, rest));
    }
    match moment(part) {
        Some(moment) => Some((Some(moment), rest)),
        None => None,
    }
}

/// Returns the names, and what stands after them; or how many bytes are left where one of them is missing.
pub(crate) fn read_names(text: &[u8]) -> Result<(Names<'_>, &[u8]), usize>
    ensures names { IfOk result (λ x. AreNames text.now (texts_of x.0) x.1.now) }
    ensures only { IfOk result (λ x. (texts : NameTexts) (rest : List ℕ) → AreNames text.now texts rest
        → (texts ≡ texts_of x.0) × (rest ≡ x.1.now)) }
    ensures lacks { IfErr result (λ left. LacksNameIn text.now left) }
{
    let (hostname, rest) = name(text, 255)?;
    let (app_name, rest) = name(rest, 48)?;
    let (proc_id, rest) = name(rest, 128)?;
    let (msg_id, rest) = name(rest, 32)?;
    let names = Names {
        hostname,
        app_name,
        proc_id,
        msg_id,
    };
    Ok((names, rest))
}

/// Returns the header of a message, and what stands after it.
pub(crate) fn read_header(m: &[u8]) -> Result<(Header<'_>, &[u8]), MessageFault>
    ensures some { IfOk result (λ x. HeaderAt m.now x.0.priority x.0.time (texts_of x.0.names) x.1.now) }
    ensures only { IfOk result (λ x. (priority : ℕ) (time : Option ℤ) (texts : NameTexts) (rest : List ℕ)
        → HeaderAt m.now priority time texts rest → (priority ≡ x.0.priority) × (time ≡ x.0.time)
        × (texts ≡ texts_of x.0.names) × (rest ≡ x.1.now)) }
    ensures fault { IfErr result (λ fault. IsMessageFault fault m.now) }
    ensures none { IfErr result (λ _. (priority : ℕ) (time : Option ℤ) (texts : NameTexts) (rest : List ℕ)
        → HeaderAt m.now priority time texts rest → ⊥) }
{
    let Some((priority, rest)) = priority(m) else {
        return Err(MessageFault::BadPri);
    };
    let Some(rest) = past_version(rest) else {
        return Err(MessageFault::BadVersion);
    };
    let Some((time, rest)) = time(rest) else {
        return Err(MessageFault::BadTime);
    };
    match read_names(rest) {
        Ok((names, rest)) => {
            let header = Header {
                priority,
                time,
                names,
            };
            Ok((header, rest))
        }
        Err(left) => Err(MessageFault::BadHeader { at: m.len() - left }),
    }
}
