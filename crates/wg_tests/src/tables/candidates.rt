// The candidates of a page, what their records take, and the one that is written.
use std::test::Fail;
use wg_encoder::Encoder;
use wg_io::SteadyDepot;
use wg_vectors::usual;

#[test]
fn candidates_of_the_second_page(rt: HostRuntime) -> Result<(), Fail> {
    let graph = wg_arcs::read(rt.alloc(), b"0 1\n0 2\n1 1\n1 2\n", 3)?;
    let params = usual(graph.nodes(), graph.arcs(), 7, 3, 4)?;
    let mut depot = SteadyDepot::new(rt.alloc(), 4096);
    let first = Encoder::new(rt.alloc(), params, &graph)?;
    assert!(rt; graph.nodes() == 3);
    let encoder = first.next(&mut depot, "g")?;
    // 011 1 1 100 100 without a reference; 011 01 1, since it has the list of page 0
    assert!(rt; encoder.candidate(0) && encoder.candidate(1) && !encoder.candidate(2));
    assert!(rt; encoder.cost(1, 0) == 11 && encoder.cost(1, 1) == 6);
    assert!(rt; encoder.chosen() == 1);
    Ok(())
}
