// The data that all crates share: limits and widths, the saved run, and the answers of the calls.
#![tactic(auto)]

// Widths of fields and records, in bytes. `Limits` in specs/ has the same names and numbers.
pub const TEXT_WIDTH: usize = 96;

pub const TAG_WIDTH: usize = 8;

pub const NUMBER_WIDTH: usize = 8;

pub const PATTERN_WIDTH: usize = 16;

pub const LANGUAGE_RANGE_WIDTH: usize = 8;

// A slot of the term table holds the longest record, a string's.
pub const SLOT_WIDTH: usize = 1 + TAG_WIDTH + TEXT_WIDTH;

// A schema record: kind, URI body and datatype.
pub const ENTRY_WIDTH: usize = 1 + TEXT_WIDTH + 1;

// A URI's record: kind and text. A schema record's datatype stands after as many bytes.
pub const URI_WIDTH: usize = 1 + TEXT_WIDTH;

// A number's record: kind and its 8 bytes.
pub const NUMBER_RECORD_WIDTH: usize = 1 + NUMBER_WIDTH;

// Where a page record's property and its object begin.
pub const PROPERTY_OFFSET: usize = 1 + TEXT_WIDTH;

pub const OBJECT_OFFSET: usize = PROPERTY_OFFSET + TEXT_WIDTH;

// A block's body: mode, count and four pairs. Where its count begins, its pairs, and what follows it.
pub const PAIR_LIMIT: usize = 4;

pub const BLOCK_WIDTH: usize = 2 + 2 * PAIR_LIMIT;

pub const COUNT_OFFSET: usize = 2;

pub const PAIRS_OFFSET: usize = 3;

pub const QUERY_OFFSET: usize = 1 + BLOCK_WIDTH;

// Where the expression of a regex begins, after its pattern, and that of a lang_matches, after its language range.
pub const REGEX_TEXT_OFFSET: usize = 1 + PATTERN_WIDTH;

pub const LANG_MATCHES_TEXT_OFFSET: usize = 1 + LANGUAGE_RANGE_WIDTH;

// A quad: four 2-byte numbers.
pub const QUAD_WIDTH: usize = 8;

// The ranks of an alphabet, one for each byte from 20 to 7E.
pub const RANKS_WIDTH: usize = 95;

// Limits.
pub const TERM_LIMIT: usize = 512;

pub const QUAD_LIMIT: usize = 512;

pub const GRAPH_LIMIT: usize = 64;

pub const ENTRY_LIMIT: usize = 128;

pub const SCRIPT_LIMIT: usize = 2048;

// Records are at most so deep, and so high is a stack.
pub const DEPTH_LIMIT: u8 = 24;

pub const ITEM_LIMIT: usize = DEPTH_LIMIT as usize;

pub const BUDGET_LIMIT: u64 = 60000;

pub const PAGE_LIMIT: usize = 65536;

pub const VARIABLE_LIMIT: usize = 16;

pub const INTEGER_LIMIT: u64 = 1000000000000;

pub const DECIMAL_LIMIT: u64 = 1000000000000000000;

// The bytes of a number's text.
pub const NUMBER_TEXT_LIMIT: usize = 40;

// A date_time lies at most so many seconds before 1970, and after it.
pub const SECONDS_BEFORE: u64 = 62135596800;

pub const SECONDS_AFTER: u64 = 253402300799;

// Lent tables, in bytes; a schema of all its entries; the type printer's input.
pub const TERM_TABLE_WIDTH: usize = TERM_LIMIT * SLOT_WIDTH;

pub const QUAD_TABLE_WIDTH: usize = QUAD_LIMIT * QUAD_WIDTH;

pub const SCHEMA_WIDTH: usize = ENTRY_LIMIT * ENTRY_WIDTH;

pub const PRINTER_LIMIT: usize = TERM_TABLE_WIDTH + SCHEMA_WIDTH + SCRIPT_LIMIT;

// The saved run as bytes: three counts, then its parts, each from its offset on.
pub const TYPES_OFFSET: usize = 6;

pub const BOUND_OFFSET: usize = TYPES_OFFSET + VARIABLE_LIMIT;

pub const BINDINGS_OFFSET: usize = BOUND_OFFSET + VARIABLE_LIMIT;

pub const FETCHED_OFFSET: usize = BINDINGS_OFFSET + 2 * VARIABLE_LIMIT;

pub const ITEMS_OFFSET: usize = FETCHED_OFFSET + 2 * GRAPH_LIMIT;

pub const ITEM_WIDTH: usize = 4 + 2 * PAIR_LIMIT;

pub const SAVED_WIDTH: usize = ITEMS_OFFSET + ITEM_LIMIT * ITEM_WIDTH;

pub const RUN_REPORT_WIDTH: usize = 8;

pub const PAGE_REPORT_WIDTH: usize = 4;

pub const TOTAL_REPORT_WIDTH: usize = 4;

pub const SUGGEST_REPORT_WIDTH: usize = 4;

pub const SCHEMA_REPORT_WIDTH: usize = 8;

pub const PUBLISH_REPORT_WIDTH: usize = 4;

// The refusals, by the documents' numbers: document 01's, and from 16 on document 02's.
#[derive(Clone, Copy, Debug, PartialEq, Eq)]
pub enum Refusal {
    WrongLength = 1,
    BadTerm = 2,
    TermTwice = 3,
    BadEntry = 4,
    PropertyTwice = 5,
    BadScript = 6,
    OutOfScope = 7,
    NoTyping = 8,
    NoGreatest = 9,
    Unsound = 10,
    BadRun = 11,
    NoGraph = 12,
    BadPage = 13,
    NoRoom = 14,
    // A text that is no number's, or whose number no term has.
    BadNumberText = 16,
    NoSuchNumber = 17,
    // A page that asks for more entries than a schema has.
    TooManyEntries = 19,
    // Ranks that are no alphabet.
    BadRanks = 21,
    // A graph that is not fetched, a buffer shorter than its page.
    NotFetched = 22,
    ShortBuffer = 23,
}

impl Refusal {
    ghost use Rattle.std.specs.Prelude.{◌≡◌};
    ghost use Rattle.definitions.specs.Numbers.{refusal_number};

    // The documents' number. Ruled out: 20 for ranks that are no alphabet; each number one less.
    pub fn number(self) -> u8
        ensures { result ≡ refusal_number self }
    {
        self as u8
    }
}

// A script item on the stack: the offset of its record in the script, and the tuple that an each block last used.
#[derive(Clone, Copy)]
pub struct SavedItem {
    pub at: u16,
    pub started: bool,
    pub last: [u16; PAIR_LIMIT],
}

// The saved run (document 01's term), in the parts of the machine's state. The control: the stack from the bottom and the
// bindings, with the reported types by document 01's codes.
#[derive(Clone, Copy)]
pub struct SavedControl {
    pub height: u16,
    pub types: [u8; VARIABLE_LIMIT],
    pub bound: [bool; VARIABLE_LIMIT],
    pub bindings: [u16; VARIABLE_LIMIT],
    pub items: [SavedItem; ITEM_LIMIT],
}

// The store, beside its tables: the number of quads in use, and the fetched list.
#[derive(Clone, Copy)]
pub struct SavedStore {
    pub quads: u16,
    pub graphs: u16,
    pub fetched: [u16; GRAPH_LIMIT],
}

#[derive(Clone, Copy)]
pub struct SavedRun {
    pub control: SavedControl,
    pub store: SavedStore,
}

// A boolean of a script.
#[derive(Clone, Copy)]
pub enum Truth {
    True,
    False,
    Unknown,
}

// How a run call ends; the wanted graph goes by its term number.
#[derive(Clone, Copy)]
pub enum RunState {
    Ended,
    Wanted(u16),
    Waiting,
    Spent,
}

// The answers of the calls: a refusal, or the result. Of a run, steps and state.
#[derive(Clone, Copy)]
pub struct RunEnd {
    pub steps: u32,
    pub state: RunState,
}

// The term that a text reads as: the integer or the millionths, in two's complement.
#[derive(Clone, Copy)]
pub enum Number {
    Integer(u64),
    Decimal(u64),
}

// What would make a script acceptable: nothing is wanting; a variable and the code of the type to write at it; no single one.
#[derive(Clone, Copy)]
pub enum Suggested {
    Accepted,
    Named(u8, u8),
    NoSingle,
}

// The entries of a schema out of a page, and the subjects left out.
#[derive(Clone, Copy)]
pub struct SchemaCounts {
    pub entries: u32,
    pub left_out: u32,
}

pub type LoadAnswer = Result<(), Refusal>;

pub type RunAnswer = Result<RunEnd, Refusal>;

// How many triples of a page were skipped.
pub type PageAnswer = Result<u32, Refusal>;

// How many steps a script takes.
pub type TotalAnswer = Result<u32, Refusal>;

pub type NumberAnswer = Result<Number, Refusal>;

pub type SuggestAnswer = Result<Suggested, Refusal>;

pub type SchemaAnswer = Result<SchemaCounts, Refusal>;

// The length of the published page.
pub type PublishAnswer = Result<u32, Refusal>;

// The saved run stands beside the answer: a refused run or page hands it back as it was lent, and a refused load none (`Calls`).
#[derive(Clone, Copy)]
pub struct Loaded {
    pub answer: LoadAnswer,
    pub saved: SavedRun,
}

#[derive(Clone, Copy)]
pub struct Ran {
    pub answer: RunAnswer,
    pub saved: SavedRun,
}

#[derive(Clone, Copy)]
pub struct Paged {
    pub answer: PageAnswer,
    pub saved: SavedRun,
}
