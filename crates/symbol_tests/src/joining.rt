//! Tests of `join`, which joins the contents of a series, and of `read_series` and `mend_series`, which read a series or
//! mend it. The data codewords were worked out by hand.

use qr_bits::parse;
use qr_field::remainder;
use qr_layout::{Level, Version};
use qr_matrix::Matrix;
use qr_mending::mend_series;
use qr_symbol::{ReadFault, Symbol, build_masked, join, read_series};
use std::test::Fail;

// The data codewords of a symbol of version 1 and level H.
type Data = [u8; 9];

// The byte `A`.
static PLAIN: Data = [0x40, 0x14, 0x10, 0xEC, 0x11, 0xEC, 0x11, 0xEC, 0x11];

// The same as the only symbol of a series. Its parity data are 41 (hexadecimal).
static ONLY: Data = [0x30, 0x04, 0x14, 0x01, 0x41, 0x00, 0xEC, 0x11, 0xEC];

// The same with the parity data 40 (hexadecimal), which are wrong.
static OTHER_PARITY: Data = [0x30, 0x04, 0x04, 0x01, 0x41, 0x00, 0xEC, 0x11, 0xEC];

// The series of `ABCDEFGH`: `ABCDE`, and then `FGH`.
static FIRST: Data = [0x30, 0x10, 0x84, 0x05, 0x41, 0x42, 0x43, 0x44, 0x45];

static SECOND: Data = [0x31, 0x10, 0x84, 0x03, 0x46, 0x47, 0x48, 0x00, 0xEC];

// Joins what these symbols contain.
fn join_all(rt: &HostRuntime, symbols: &[Data]) -> Result<Result<Vec<u8>, ReadFault>, Fail> {
    let mut contents = Vec::new(rt.alloc());
    for data in symbols {
        contents.push(parse(rt.alloc(), data, Version::FIRST)?)?;
    }
    Ok(join(rt.alloc(), &contents))
}

#[test]
fn contents_that_belong_together(rt: HostRuntime) -> Result<(), Fail> {
    let rows = [
        ("a plain symbol", &[PLAIN][..], &b"A"[..]),
        ("a series of one", &[ONLY], b"A"),
        ("two parts", &[FIRST, SECOND], b"ABCDEFGH"),
    ];
    for (name, symbols, bytes) in rows {
        assert_eq!(rt; join_all(&rt, symbols)??.as_slice(), bytes, "{name}");
    }
    Ok(())
}

#[test]
fn contents_that_do_not_belong_together(rt: HostRuntime) -> Result<(), Fail> {
    let rows = [
        ("no symbol", &[][..]),
        ("the parity of another letter", &[OTHER_PARITY]),
        ("two plain symbols", &[PLAIN, PLAIN]),
        ("the second part before the first", &[SECOND, FIRST]),
        ("the first part alone", &[FIRST]),
        ("the first part twice", &[FIRST, FIRST]),
    ];
    for (name, symbols) in rows {
        let fault = join_all(&rt, symbols)?.err();
        assert_eq!(rt; fault, Some(ReadFault::Series), "{name}");
    }
    Ok(())
}

// Returns the symbol of version 1 and level H with these data codewords. It has one block.
fn symbol_of(rt: &HostRuntime, data: &Data) -> Result<Symbol, Fail> {
    let mut codewords = Vec::from_slice(rt.alloc(), data)?;
    codewords.extend_from_slice(remainder(data, 17).as_slice())?;
    if codewords.len() != usize::from(Version::FIRST.total_codewords()) {
        return Err("26 codewords".into());
    }
    Ok(build_masked(rt.alloc(), Version::FIRST, Level::H, &codewords, 0)?)
}

// Returns a `Symbol` whose modules are all light, so that it cannot be read.
fn light(rt: &HostRuntime, side: u8) -> Result<Symbol, Fail> {
    if side == 0 || side > 177 {
        return Err("no such side".into());
    }
    Ok(Symbol {
        version: Version::FIRST,
        level: Level::H,
        mask: 0,
        matrix: Matrix::new(rt.alloc(), side)?,
    })
}

// Returns the square of this symbol with its last module inverted.
fn damaged(rt: &HostRuntime, data: &Data) -> Result<Matrix, Fail> {
    let mut square = symbol_of(rt, data)?.matrix;
    let last = square.side() - 1;
    let dark = square.dark(last, last);
    square.set(last, last, !dark);
    Ok(square)
}

#[test]
fn symbols_that_are_read(rt: HostRuntime) -> Result<(), Fail> {
    let symbols = [symbol_of(&rt, &FIRST)?, symbol_of(&rt, &SECOND)?];
    let bytes = read_series(rt.alloc(), &symbols)?;
    assert_eq!(rt; bytes.as_slice(), b"ABCDEFGH".as_slice());
    assert_eq!(rt; read_series(rt.alloc(), &[]).err(), Some(ReadFault::Series));
    Ok(())
}

#[test]
fn squares_that_are_mended(rt: HostRuntime) -> Result<(), Fail> {
    let squares = [damaged(&rt, &FIRST)?, damaged(&rt, &SECOND)?];
    let bytes = mend_series(rt.alloc(), &squares)?;
    assert_eq!(rt; bytes.as_slice(), b"ABCDEFGH".as_slice());
    let series = Some(ReadFault::Series);
    assert_eq!(rt;
        mend_series(rt.alloc(), &squares[..1]).err(),
        series,
        "the first part alone"
    );
    assert_eq!(rt; mend_series(rt.alloc(), &[]).err(), series, "no square");
    let exchanged = [damaged(&rt, &SECOND)?, damaged(&rt, &FIRST)?];
    assert_eq!(rt;
        mend_series(rt.alloc(), &exchanged).err(),
        series,
        "exchanged"
    );
    Ok(())
}

// The fault is that of the first symbol that cannot be read or mended, whatever the headers are.
#[test]
fn first_refusals(rt: HostRuntime) -> Result<(), Fail> {
    let rows = [
        (
            "a side of no version, then no format",
            20,
            21,
            ReadFault::Side,
        ),
        (
            "no format, then a side of no version",
            21,
            20,
            ReadFault::Format,
        ),
    ];
    for (name, side, next, fault) in rows {
        let symbols = [
            symbol_of(&rt, &FIRST)?,
            light(&rt, side)?,
            light(&rt, next)?,
        ];
        assert_eq!(rt;
            read_series(rt.alloc(), &symbols).err(),
            Some(fault),
            "{name}, read"
        );
        let squares = [
            damaged(&rt, &FIRST)?,
            light(&rt, side)?.matrix,
            light(&rt, next)?.matrix,
        ];
        assert_eq!(rt;
            mend_series(rt.alloc(), &squares).err(),
            Some(fault),
            "{name}, mended"
        );
    }
    Ok(())
}
