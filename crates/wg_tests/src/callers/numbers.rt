use std::test::Fail;
use wg_bits::{Bits, Cursor};
use wg_codes::{Read, fold, length, unfold};
use wg_io::{FileSink, LoadError, SteadyDepot, append_all, read_whole, write_pieces};
use wg_num::{UNITS, decimal_into, read_decimal, units_text};
use wg_params::{BadParam, Code, Codes, Key, Layout, Params};

// In the overview of wg_num.
#[test]
fn a_number_and_its_digits(rt: HostRuntime) {
    assert!(rt; read_decimal(b"1024") == Some(1024));
    assert!(rt; read_decimal(b"01024").is_none());
    let mut buffer = [0; 20];
    let count = decimal_into(1024, &mut buffer);
    assert!(rt; &buffer[..count] == b"1024".as_slice());
    let quarter = units_text(UNITS / 4);
    assert!(rt; quarter.as_slice() == b"0.250000000000000000000000".as_slice());
}

// In the overview of wg_params.
#[test]
fn parameters_within_their_limits(rt: HostRuntime) -> Result<(), Fail> {
    let params = Params::new(
        3,
        4,
        7,
        None,
        4,
        3,
        Code::Gamma,
        Code::Unary,
        Code::Gamma,
        Code::Gamma,
        Code::Zeta(3),
        Code::Gamma,
    )?;
    assert!(rt; params.nodes() == 3 && params.residuals() == Code::Zeta(3));
    // offsets are in gamma or delta
    let layout = params.layout();
    let codes = Codes {
        offsets: Code::Unary,
        ..layout.codes
    };
    let other = Params::with_layout(3, 4, Layout { codes, ..layout });
    let key = Key::CompressionFlags;
    assert!(rt; other.err() == Some(BadParam { key }));
    Ok(())
}

// In the overview of wg_outside.
#[test]
fn a_file_as_a_sink(rt: HostRuntime) -> Result<(), Fail> {
    let mut depot = SteadyDepot::new(rt.alloc(), 4096);
    let mut arcs = FileSink::new(&mut depot, "arcs");
    write_pieces(&mut arcs, &[b"0 1\n".as_slice(), b"1 0\n".as_slice()])?;
    let bytes = read_whole(rt.alloc(), &mut depot, "arcs")?;
    assert!(rt; bytes.as_slice() == b"0 1\n1 0\n".as_slice());
    Ok(())
}

// In the overview of wg_io.
#[test]
fn a_file_in_memory(rt: HostRuntime) -> Result<(), Fail> {
    let mut depot = SteadyDepot::new(rt.alloc(), 4096);
    depot.put_file("arcs", b"0 1\n")?;
    append_all(&mut depot, "arcs", b"1 0\n")?;
    let bytes = read_whole(rt.alloc(), &mut depot, "arcs")?;
    assert!(rt; bytes.as_slice() == b"0 1\n1 0\n".as_slice());
    let other = read_whole(rt.alloc(), &mut depot, "weights");
    assert!(rt; other.err() == Some(LoadError::Absent));
    Ok(())
}

// In the overview of wg_bits.
#[test]
fn a_byte_bit_by_bit(rt: HostRuntime) {
    // 101 00 1 00
    let mut cursor = Cursor::new(Bits::of(b"\xA4"), 0);
    assert!(rt; cursor.take(3) == Some(5));
    assert!(rt; cursor.zeros(64) == 2);
    assert!(rt; cursor.bit() == Some(true));
    assert!(rt; cursor.at() == 6);
    assert!(rt; cursor.take(3).is_none());
}

// In the overview of wg_codes.
#[test]
fn words_of_codes(rt: HostRuntime) {
    // 00101 in gamma, and then 1011 in zeta
    let mut cursor = Cursor::new(Bits::of(b"\x2D\x80"), 0);
    assert!(rt; wg_codes::read(Code::Gamma, &mut cursor) == Read::Value(4));
    assert!(rt; wg_codes::read(Code::Zeta(3), &mut cursor) == Read::Value(2));
    assert!(rt; wg_codes::read(Code::Gamma, &mut cursor) == Read::Cut);
    assert!(rt; length(Code::Gamma, 4) == 5);
    assert!(rt; fold(-2) == 3);
    assert!(rt; unfold(3) == -2);
}
