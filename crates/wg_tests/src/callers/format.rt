use std::test::Fail;
use wg_grammar::{Field, Kind, Need, Progress};
use wg_intervals::split;
use wg_params::Code;
use wg_vectors::usual;

// In the overview of wg_properties.
#[test]
fn parameters_as_a_text(rt: HostRuntime) -> Result<(), Fail> {
    let params = usual(3, 4, 7, 3, 4)?;
    let text = wg_properties::write(rt.alloc(), &params)?;
    let again = wg_properties::read(text.as_slice())?;
    assert!(rt; again.nodes() == 3 && again.arcs() == 4);
    assert!(rt; again.residuals() == Code::Zeta(3));
    Ok(())
}

// In the overview of wg_grammar.
#[test]
fn fields_of_a_record(rt: HostRuntime) -> Result<(), Fail> {
    let params = usual(3, 4, 7, 3, 4)?;
    // page 2 is the last, and each of the 4 arcs stands before it
    let mut progress = Progress::start(&params, 2, 4);
    if let Need::Read(field, code) = progress.need() {
        assert!(rt; field == Field::Outdegree && code == Code::Gamma);
        assert!(rt; progress.accept(1, None) == Err(Kind::Total));
    }
    if let Need::Read(_, _) = progress.need() {
        assert!(rt; progress.accept(0, None) == Ok(()));
    }
    assert!(rt; progress.need() == Need::End);
    Ok(())
}

// In the overview of wg_blocks.
#[test]
fn blocks_that_copy_a_list(rt: HostRuntime) -> Result<(), Fail> {
    // of 1, 3, 5 and 7 the first is copied, the second is skipped, and all that is left is copied
    let blocks = wg_blocks::make(rt.alloc(), &[1, 5, 7], &[1, 3, 5, 7])?;
    assert!(rt; blocks.as_slice() == [1, 1].as_slice());
    let none = wg_blocks::make(rt.alloc(), &[2, 4], &[1, 3])?;
    assert!(rt; none.as_slice() == [0].as_slice());
    Ok(())
}

// In the overview of wg_intervals.
#[test]
fn intervals_of_a_list(rt: HostRuntime) -> Result<(), Fail> {
    // runs of at least 3 numbers are intervals: a left end, and a length
    let parts = split(rt.alloc(), &[0, 1, 2, 4, 5, 9], 3)?;
    assert!(rt; parts.intervals.as_slice() == [0, 3].as_slice());
    assert!(rt; parts.residuals.as_slice() == [4, 5, 9].as_slice());
    Ok(())
}
