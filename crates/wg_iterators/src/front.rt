//! Which of the three fronts comes next.
ghost use Rattle.std.specs.Prelude.{◌≡◌, ◌<◌, None, Some, Option};
ghost use Rattle.wg_iterators.specs.Least.{IsLeast};
ghost use Rattle.wg_iterators.specs.Ahead.{head_of};

// The next number of a front: not read yet, taken ahead, or none left.
#[derive(Clone, Copy, Debug)]
pub(crate) enum Head {
    Unread,
    Next(u64),
    Done,
}

impl Head {
    // The head of a front that answered this.
    pub(crate) fn of(answer: Option<u64>) -> Head
        ensures { result ≡ head_of answer }
    {
        match answer {
            None => Head::Done,
            Some(number) => Head::Next(number),
        }
    }
}

// A front, with its next number.
#[derive(Clone, Copy)]
pub(crate) enum Front {
    Copied(u64),
    Inside(u64),
    Residual(u64),
}

// The lesser of the next numbers that are not copied.
#[inline(always)]
fn lesser(inside: Option<u64>, residual: Option<u64>) -> Option<Front>
    ensures { IsLeast None inside residual result }
{
    match inside {
        None => match residual {
            None => None,
            Some(z) => Some(Front::Residual(z)),
        },
        Some(y) => match residual {
            None => Some(Front::Inside(y)),
            Some(z) => {
                if y <= z {
                    Some(Front::Inside(y))
                } else {
                    Some(Front::Residual(z))
                }
            }
        },
    }
}

// The front whose next number is the least of the three.
#[inline(always)]
pub(crate) fn least(
    copied: Option<u64>,
    inside: Option<u64>,
    residual: Option<u64>,
) -> Option<Front>
    ensures { IsLeast copied inside residual result }
{
    match copied {
        None => lesser(inside, residual),
        Some(x) => match lesser(inside, residual) {
            None => Some(Front::Copied(x)),
            Some(Front::Inside(y)) => {
                if x <= y {
                    Some(Front::Copied(x))
                } else {
                    Some(Front::Inside(y))
                }
            }
            Some(Front::Residual(z)) => {
                if x <= z {
                    Some(Front::Copied(x))
                } else {
                    Some(Front::Residual(z))
                }
            }
            Some(Front::Copied(_)) => unreachable!(),
        },
    }
}
