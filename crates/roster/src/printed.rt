// Numbers as makers print them.
use crate::print;
use cases::rows;
use definitions::Number;
use fields::numbers::to_signed;
use std::io::{self, Write};

// No row is wider.
const ROW_WIDTH: usize = 64;

// One case: what a text reads as.
fn show<W: Write>(out: &mut W, text: &[u8]) -> io::Result<()> {
    print::word(out, b"number ")?;
    print::word(out, text)?;
    print::word(out, b": ")?;
    match numbers::read_number(text) {
        Ok(Number::Integer(n)) => print::number(out, to_signed(n))?,
        Ok(Number::Decimal(n)) => {
            print::number(out, to_signed(n))?;
            print::word(out, b" millionths")?;
        }
        Err(refusal) => {
            print::word(out, b"refused ")?;
            print::number(out, i64::from(refusal.number()))?;
        }
    }
    print::byte(out, b'\n')
}

// A row for each case.
fn show_rows<W: Write>(out: &mut W, text: &[u8]) -> io::Result<()> {
    let mut at = 0;
    while at < text.len() {
        let end = rows::word_end(text, at, b'\n', ROW_WIDTH);
        show(out, &text[at..end])?;
        at = rows::after(text, end);
    }
    Ok(())
}

// 77 lines.
pub fn cases<W: Write>(out: &mut W) -> io::Result<()> {
    // Document 02's own.
    show_rows(out, b"0.999e2\n-3\n1e-7\n-0\n-0.0\n")?;
    // The literals that XML Schema gives for xsd:decimal, xsd:integer and xsd:double.
    show_rows(
        out,
        b"-1.23\n12678967.543233\n+100000.00\n210\n-1\n0\n12678967543233\n+100000\n",
    )?;
    show_rows(out, b"-1E4\n1267.43233E12\n12.78e-2\n12\n-0\n0\nINF\nNaN\n")?;
    // Both limits of each kind, and one past.
    show_rows(
        out,
        b"999999999999\n1000000000000\n1000000000001\n-1000000000000\n-1000000000001\n1e12\n1000000000000.000001\n999999999999.999999\n",
    )?;
    show_rows(
        out,
        b"-1E12\n-1000000000000.000001\n1.000000000000000001e12\n0.1e13\n1e13\n1e99\n-9.99e+99\n",
    )?;
    // The last millionth, and parts of it.
    show_rows(
        out,
        b"0.000001\n1e-6\n0.1e-5\n10e-7\n0.0000010\n0.0000001\n1.5e-6\n15e-7\n-1e-99\n100000000000000000000e-20\n100000000000000000001e-20\n",
    )?;
    // Zeros with exponents.
    show_rows(out, b"0e99\n0e-99\n-0E+00\n0.000000000000e-5\n000\n")?;
    // 40 bytes, and 41.
    show_rows(
        out,
        b"0000000000000000000000000000000000000001\n00000000000000000000000000000000000000001\n",
    )?;
    show_rows(
        out,
        b"9999999999999999999999999999999999999999\n99999999999999999999999999999999999999999\n",
    )?;
    show_rows(
        out,
        b"0.00000000000000000000000000000000000000\n0.000000000000000000000000000000000000000\n",
    )?;
    // Of another form.
    show_rows(
        out,
        b"\n \n 1\n1 \n+\n.5\n5.\n.\n1e\n1e+\n1e123\n1e1.5\ne5\n+-1\n--1\n1,5\n1 000\n1_000\n0x1F\n",
    )
}
