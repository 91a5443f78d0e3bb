use std::alloc::{AllocError, Global};
use std::process::Abort;
use std::test::Fail;

mod bench;
mod cases;
mod ending;
mod rows;
mod shrinking;
mod spelling;

use cases::{Cases, WHOLE};
use rows::WRONG;

// What is reported of the rows that are not so, if a call moves at most so many bytes.
fn wrong_rows(alloc: Global, piece: u64, texts: &[&str]) -> Result<String, AllocError> {
    let mut cases = Cases::new(alloc, piece);
    let mut wrong = String::new(alloc);
    for text in texts {
        go_through(&mut cases, text, &mut wrong)?;
    }
    Ok(wrong)
}

fn go_through(cases: &mut Cases, text: &str, wrong: &mut String) -> Result<(), AllocError> {
    for line in text.lines() {
        if !cases.line(line)? {
            wrong.push_str(cases.told_of_row()?.as_str())?;
        }
    }
    Ok(())
}

// The rows at the end are spoiled: they alone are wrong, and what is reported of them is known.
#[test]
fn worked_rows(rt: HostRuntime) -> Result<(), Fail> {
    let rows = rows::rows();
    for piece in [WHOLE, 3, 1] {
        let wrong = wrong_rows(rt.alloc(), piece, &rows)?;
        assert!(rt; wrong.as_str() == WRONG, "pieces of {piece}: {wrong}");
    }
    Ok(())
}

#[test]
fn large_rows(rt: HostRuntime) -> Result<(), Fail> {
    let wrong = wrong_rows(rt.alloc(), WHOLE, &rows::large_rows())?;
    assert!(rt; wrong.as_str() == WRONG, "{wrong}");
    Ok(())
}
