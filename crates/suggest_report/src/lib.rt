// The report of a suggestion: accepted, a type named, or that no single one would do.
#![tactic(auto)]

ghost use Rattle.std.specs.Prelude.{◌≡◌, [], ◌∷◌, length};
ghost use Rattle.definitions.specs.Limits.{suggest_report_width};
ghost use Rattle.definitions.specs.Exports.{suggest_report};

use definitions::{SuggestAnswer, Suggested};

// Three bytes and a zero.
fn write_three(first: u8, second: u8, third: u8, out: &mut [u8])
    requires { length out.old ≡ suggest_report_width }
    ensures { out.new ≡ first ∷ second ∷ third ∷ 0 ∷ [] }
{
    out[0] = first;
    out[1] = second;
    out[2] = third;
    out[3] = 0;
}

// 0 accepted as it is, 1 a type is named, 2 no single one would do; the variable and the code; zero. A refused call leaves the
// report as it was.
pub fn write_suggest_report(answer: SuggestAnswer, out: &mut [u8])
    requires { length out.old ≡ suggest_report_width }
    ensures { out.new ≡ suggest_report out.old answer }
{
    let Ok(suggested) = answer else {
        return;
    };
    match suggested {
        Suggested::Accepted => write_three(0, 0, 0, out),
        Suggested::Named(variable, code) => write_three(1, variable, code, out),
        Suggested::NoSingle => write_three(2, 0, 0, out),
    }
}
