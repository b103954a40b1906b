// Types by their codes: 1 to 5 a datatype, 9 to 13 range of datatype 1 to 5.
#![tactic(auto)]

ghost use Rattle.std.specs.Prelude.{◌≡◌, ◌<◌};
ghost use Rattle.definitions.specs.Types.{leq_datatype, datatype_code, type_code};
ghost use Rattle.codes.specs.Family.{family, own_datatype};
ghost use Rattle.codes.specs.TypeCodes.{datatype_of, type_of, code_leq};

// The family of a datatype.
// Ruled out: integers apart from decimals; URIs and strings as one.
pub fn family(datatype: u8) -> usize
    ensures { result ≡ family (datatype_of datatype) }
{
    match datatype {
        2 => 1,
        3 => 2,
        4 => 3,
        5 => 2,
        _ => 0,
    }
}

// The least datatype of what has a type: any_uri of a range.
// Ruled out: a range as its datatype; every code as any_uri.
pub fn own(code: u8) -> u8
    ensures { datatype_of result ≡ own_datatype (type_of code) }
{
    if code < 8 {
        return code;
    }
    1
}

// Whether a datatype is below or equal to another: both of one family, and not decimal below integer.
// Ruled out: decimal below integer; datatypes of two families.
pub fn below(a: u8, b: u8) -> bool
    ensures { result ≡ leq_datatype (datatype_of a) (datatype_of b) }
{
    if (a == 3) & (b == 5) {
        return false;
    }
    family(a) == family(b)
}

// The code of the datatype that a number stands for.
fn datatype(code: u8) -> u8
    ensures { (result ≡ datatype_code (datatype_of code)) × (result < 8) }
{
    match code {
        2..=5 => code,
        _ => 1,
    }
}

// The code of the type that a number stands for.
// Ruled out: a datatype's code for its range's; 6 as it stands.
pub fn normal(code: u8) -> u8
    ensures { result ≡ type_code (type_of code) }
{
    if code < 8 {
        return datatype(code);
    }
    8 + datatype(code - 8)
}

// Whether a term whose least type has one code has the type of another.
// Ruled out: range(d) ordered as d is; a property that is no URI.
pub fn has_type(least: u8, ty: u8) -> bool
    ensures { result ≡ code_leq least ty }
{
    let number = (least == 5) & (ty == 3);
    let uri = (9 <= least) & (ty == 1);
    let property = (least == 11) & (ty == 13);
    (least == ty) | (number | (uri | property))
}
