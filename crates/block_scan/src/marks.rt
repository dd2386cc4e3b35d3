//! Marks of rows: which of them stay.

ghost use Rattle.std.specs.Prelude.{◌≡◌, ◌&&◌, Bool, false, length, map, not, zip};
ghost use Rattle.std.specs.List.{list_any};

/// Keeps all marks, or none.
pub(crate) fn settle(marks: &mut [bool], stay: bool)
    ensures { marks.new ≡ map (λ mark. mark && stay) marks.old }
{
    if !stay {
        clear(marks);
    }
}

fn clear(marks: &mut [bool])
    ensures { marks.new ≡ map (λ mark. mark && false) marks.old }
{
    for mark in marks.iter_mut() {
        *mark = false;
    }
}

/// Takes away each mark that stands among the others too.
pub(crate) fn remove(marks: &mut [bool], others: &[bool])
    requires { length others.now ≡ length marks.old }
    ensures { marks.new ≡ map (λ p. p.0 && not p.1) (zip marks.old others.now) }
{
    for i in 0..marks.len() {
        marks[i] = marks[i] & !others[i];
    }
}

/// Returns whether some row is marked.
pub(crate) fn has_some(marks: &[bool]) -> bool
    ensures { result ≡ list_any (λ mark. mark) marks.now }
{
    marks.iter().any(|mark| *mark)
}
