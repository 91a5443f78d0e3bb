use std::test::Fail;
use wg_encoder::encode;
use wg_io::SteadySink;
use wg_lines::Lines;
use wg_vectors::usual;

// In the overview of wg_lines.
#[test]
fn two_lines(rt: HostRuntime) -> Result<(), Fail> {
    let mut sink = SteadySink::new(rt.alloc(), 4096);
    let mut lines = Lines::new();
    lines.text(&mut sink, b"# one arc\n")?;
    lines.pair(&mut sink, 0, 345)?;
    lines.flush(&mut sink)?;
    assert!(rt; sink.bytes() == b"# one arc\n0 345\n".as_slice());
    Ok(())
}

// In the overview of wg_encoder.
#[test]
fn files_of_a_graph(rt: HostRuntime) -> Result<(), Fail> {
    let graph = wg_arcs::read(rt.alloc(), b"0 1\n0 2\n1 1\n1 2\n", 3)?;
    let params = usual(graph.nodes(), graph.arcs(), 7, 3, 4)?;
    let archive = encode(rt.alloc(), params, &graph)?;
    assert!(rt; archive.bits() == 19 && archive.referring() == 1);
    assert!(rt; archive.graph() == b"\x7D\xC6\xE0".as_slice());
    Ok(())
}
