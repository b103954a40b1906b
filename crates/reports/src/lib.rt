// Parts of what a call hands back at the C interface: the number of its answer; the report of a count and of a schema out of a page; and the saved run's bytes.
#![tactic(auto)]

ghost use Rattle.std.specs.Prelude.{◌≡◌, length};
ghost use Rattle.definitions.specs.Numbers.{answer_number};
ghost use Rattle.definitions.specs.Limits.{page_report_width, schema_report_width, saved_width};
ghost use Rattle.definitions.specs.Exports.{count_report, schema_report, saved_after};

use definitions::{Refusal, SavedRun, SchemaAnswer};
use layout::writing;

// 0, or the refusal's number.
// Ruled out: 0 for a refusal; a refusal's number for an answer.
pub fn answer_number<T: Copy>(answer: Result<T, Refusal>) -> u32
    ensures { result ≡ answer_number answer }
{
    match answer {
        Ok(_) => 0,
        Err(refusal) => refusal.number() as u32,
    }
}

// The count that a page, a total or a publish call answers; a refused call leaves the report as it was.
// Ruled out: a report of zeros after a refusal; a count one short.
pub fn write_count_report(answer: Result<u32, Refusal>, out: &mut [u8])
    requires { length out.old ≡ page_report_width }
    ensures { out.new ≡ count_report out.old answer }
{
    let Ok(count) = answer else {
        return;
    };
    writing::write_number(count as u64, out);
}

// The number of entries, then the number of subjects left out; a refused call leaves the report as it was.
pub fn write_schema_report(answer: SchemaAnswer, out: &mut [u8])
    requires { length out.old ≡ schema_report_width }
    ensures { out.new ≡ schema_report out.old answer }
{
    let Ok(counts) = answer else {
        return;
    };
    writing::write_number(counts.entries as u64, &mut out[0..4]);
    writing::write_number(counts.left_out as u64, &mut out[4..8]);
}

// The saved run's bytes where nothing was refused, else those that were lent.
// Ruled out: a refused call that writes its saved run; a call that leaves the bytes it was lent.
pub fn hand_back(number: u32, run: SavedRun, saved: &mut [u8])
    requires { length saved.old ≡ saved_width }
    ensures { saved.new ≡ saved_after number run saved.old }
{
    if number == 0 {
        writing::write_saved(run, saved);
    }
}
