use std::alloc::Global;
use std::process::Abort;
use std::test::Fail;
use wg_builds::build::build;
use wg_cli::run_in_memory;
use wg_io::{Depot, Sink, SteadyDepot, SteadySink};
use wg_lookups::spot::spot;
use wg_outcomes::{Ending, Input, Status, as_second, params_of};
use wg_queries::printing::{Listing, print_records};
use wg_readings::load_params;
use wg_transforms::transpose::transpose;
use wg_vectors::usual;
use wg_words::{Job, Name, Words, default_layout};
use wg_writing::{build_archive, encode_graph};

// In the overview of wg_words.
#[test]
fn words_that_ask_for_a_job(rt: HostRuntime) -> Result<(), Fail> {
    let mut words = Words::new(rt.alloc());
    for word in ["show", "web", "7", "0"] {
        words.push(word)?;
    }
    match wg_words::job(rt.alloc(), &words)? {
        Job::Show { base, pages } => {
            assert!(rt; base.as_str() == "web");
            assert!(rt; pages.as_slice() == [7, 0].as_slice());
        }
        _ => return Err("another job".into()),
    }
    Ok(())
}

// In the overview of wg_readings.
#[test]
fn parameters_of_an_archive(rt: HostRuntime) -> Result<(), Fail> {
    let mut depot = SteadyDepot::new(rt.alloc(), 4096);
    let text = wg_properties::write(rt.alloc(), &usual(3, 4, 7, 3, 4)?)?;
    depot.put_file("web.properties", text.as_slice())?;
    let web = Name::new(rt.alloc(), "web")?;
    let Ok(params) = load_params(rt.alloc(), &mut depot, &web) else {
        return Err("no parameters".into());
    };
    assert!(rt; params.arcs() == 4);
    let other = Name::new(rt.alloc(), "other")?;
    let Err(ending) = load_params(rt.alloc(), &mut depot, &other) else {
        return Err("parameters of no file".into());
    };
    assert!(rt; ending.status == Status::Missing(Input::Properties));
    Ok(())
}

// In the overview of wg_outcomes.
#[test]
fn endings_of_a_job(rt: HostRuntime) {
    let missing = Ending::of(Status::Missing(Input::Properties));
    assert!(rt; missing.status.code() == 6);
    let second = as_second(missing);
    assert!(rt; second.status == Status::Missing(Input::SecondProperties));
}

// In the overview of wg_queries.
#[test]
fn arcs_of_an_archive(rt: HostRuntime) -> Result<(), Fail> {
    let mut depot = SteadyDepot::new(rt.alloc(), 4096);
    let text = wg_properties::write(rt.alloc(), &usual(3, 4, 7, 3, 4)?)?;
    depot.put_file("web.properties", text.as_slice())?;
    depot.put_file("web.graph", b"\x7D\xC6\xE0")?;
    let base = Name::new(rt.alloc(), "web")?;
    let mut out = SteadySink::new(rt.alloc(), 4096);
    let done = print_records(rt.alloc(), &base, Listing::Arcs, &mut depot, &mut out);
    assert!(rt; done.is_ok());
    assert!(rt; out.bytes() == b"0 1\n0 2\n1 1\n1 2\n".as_slice());
    Ok(())
}

// In the overview of wg_lookups.
#[test]
fn a_page_is_looked_up(rt: HostRuntime) -> Result<(), Fail> {
    let mut depot = SteadyDepot::new(rt.alloc(), 4096);
    let text = wg_properties::write(rt.alloc(), &usual(3, 4, 7, 3, 4)?)?;
    depot.put_file("web.properties", text.as_slice())?;
    depot.put_file("web.graph", b"\x7D\xC6\xE0")?;
    // 1 0001101 00111 010: the words of 0, 12, 6 and 1
    depot.put_file("web.offsets", b"\x8D\x3A")?;
    let base = Name::new(rt.alloc(), "web")?;
    let mut out = SteadySink::new(rt.alloc(), 4096);
    let done = spot(rt.alloc(), &base, 1, &mut depot, &mut out);
    assert!(rt; done.is_ok());
    assert!(rt; out.bytes() == b"1 1 2\n".as_slice());
    Ok(())
}

// In the overview of wg_writing.
#[test]
fn an_archive_is_written(rt: HostRuntime) -> Result<(), Fail> {
    let graph = wg_arcs::read(rt.alloc(), b"0 1\n", 2)?;
    let params = params_of(&default_layout(), graph.nodes(), graph.arcs());
    let Ok(archive) = encode_graph(rt.alloc(), &params, &graph) else {
        return Err("out of memory".into());
    };
    let base = Name::new(rt.alloc(), "g")?;
    let mut depot = SteadyDepot::new(rt.alloc(), 4096);
    let mut out = SteadySink::new(rt.alloc(), 4096);
    let done = build_archive(rt.alloc(), &params, &archive, &base, &mut depot, &mut out);
    assert!(rt; done.is_ok());
    assert!(rt; depot.holds("g.properties"));
    Ok(())
}

// In the overview of wg_builds.
fn an_arc_list_is_built<D: Depot, S: Sink>(
    rt: &impl Abort,
    alloc: Global,
    depot: &mut D,
    out: &mut S,
) -> Result<(), Fail> {
    let list = Name::new(alloc, "a")?;
    let base = Name::new(alloc, "g")?;
    let done = build(alloc, &list, &base, 2, &default_layout(), depot, out);
    assert!(rt; done.is_ok());
    Ok(())
}

#[test]
fn an_archive_of_one_arc(rt: HostRuntime) -> Result<(), Fail> {
    let mut depot = SteadyDepot::new(rt.alloc(), 4096);
    depot.put_file("a", b"0 1\n")?;
    let mut out = SteadySink::new(rt.alloc(), 4096);
    an_arc_list_is_built(&rt, rt.alloc(), &mut depot, &mut out)?;
    assert!(rt; out.bytes() == b"ok nodes=2 arcs=1 bits=10\n".as_slice());
    Ok(())
}

// In the overview of wg_transforms.
fn web_is_transposed<D: Depot, S: Sink>(
    rt: &impl Abort,
    alloc: Global,
    depot: &mut D,
    out: &mut S,
) -> Result<(), Fail> {
    let input = Name::new(alloc, "web")?;
    let output = Name::new(alloc, "t")?;
    let done = transpose(alloc, &input, &output, &default_layout(), depot, out);
    assert!(rt; done.is_ok());
    Ok(())
}

#[test]
fn an_archive_is_transposed(rt: HostRuntime) -> Result<(), Fail> {
    let mut depot = SteadyDepot::new(rt.alloc(), 4096);
    let text = wg_properties::write(rt.alloc(), &usual(3, 4, 7, 3, 4)?)?;
    depot.put_file("web.properties", text.as_slice())?;
    depot.put_file("web.graph", b"\x7D\xC6\xE0")?;
    let mut out = SteadySink::new(rt.alloc(), 4096);
    web_is_transposed(&rt, rt.alloc(), &mut depot, &mut out)?;
    assert!(rt; depot.holds("t.graph"));
    Ok(())
}

// In the overview of wg_greedy.
#[test]
fn laws_of_greedy_archives(_rt: HostRuntime) {
    wg_greedy::laws::greedy_archives();
}

// In the overview of wg_laws.
#[test]
fn laws_of_readings_and_archives(_rt: HostRuntime) {
    wg_laws::readings();
    wg_laws::built_archives();
}

// In the overview of wg_cli.
#[test]
fn a_text_is_imported(rt: HostRuntime) -> Result<(), Fail> {
    let mut words = wg_cli::Words::new(rt.alloc());
    for word in ["import", "web.txt", "web"] {
        words.push(word)?;
    }
    let mut depot = SteadyDepot::new(rt.alloc(), 4096);
    depot.put_file("web.txt", b"3\n1 2\n1 2\n\n")?;
    let mut out = SteadySink::new(rt.alloc(), 4096);
    let mut err = SteadySink::new(rt.alloc(), 4096);
    let status = run_in_memory(rt.alloc(), &words, &mut depot, &mut out, &mut err);
    assert!(rt; status == wg_cli::Status::Done);
    assert!(rt; depot.holds("web.graph"));
    Ok(())
}
