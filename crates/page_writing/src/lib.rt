// The page of keys: their records put into order, and written one after the other.
#![tactic(auto)]

ghost use Rattle.std.specs.Prelude.{◌≡◌, true, ◌++◌, ◌+◌, ◌≤◌, ◌<◌, length, drop};
ghost use Rattle.definitions.specs.Limits.{slot_width, quad_limit};
ghost use Rattle.output.specs.Written.{Written};
ghost use Rattle.record_order.specs.Records.{body_of_slot, slot_in, key_record, key_in, keys_in};
ghost use Rattle.definitions.specs.Calls.{publish_result};
ghost use Rattle.page_writing.specs.Page.{keys_page, sorted_page, fitted};

use definitions::{OBJECT_OFFSET, PublishAnswer, QUAD_LIMIT, Refusal, SLOT_WIDTH, TEXT_WIDTH};
use keys::{object_of, property_of, subject_of};
use output::{put_byte, put_text};
use sorting::merging::sort_keys;
use term_bodies::bodies::body_width;

// What a term's kind (11 to 15) and the page record's (81 to 85) with such an object lie apart.
const KIND_STEP: u8 = 0x70;

// The first bytes of a slot's body, from an offset on.
fn put_body(table: &[u8], slot: usize, width: usize, out: &mut [u8], at: usize) -> usize
    requires slot_value { slot_in table.now slot ≡ true }
    requires width_lt_slot_width { width < slot_width }
    requires width_in_bounds { at + width ≤ length out.old }
    ensures written { Written (body_of_slot table.now slot width) out.old out.new at result }
    ensures value { result ≡ at + width }
{
    let first = slot * SLOT_WIDTH + 1;
    let end = first + width;
    put_text(&table[first..end], out, at)
}

// How long the record of a key is. Ruled out: the length of a record with the longest object; the kind's byte left out.
fn record_length(table: &[u8], key: u64) -> usize
    requires { key_in table.now key ≡ true }
    ensures value { result ≡ length (key_record table.now key) }
    ensures upper_bound { result < 512 }
{
    let at = object_of(key) * SLOT_WIDTH;
    OBJECT_OFFSET + body_width(table[at])
}

// The record of a key, from an offset on. Ruled out: a term's kind in place of the record's; the property before the subject.
fn put_record(table: &[u8], key: u64, out: &mut [u8], at: usize) -> usize
    requires key_value { key_in table.now key ≡ true }
    requires key_in_bounds { at + length (key_record table.now key) ≤ length out.old }
    ensures { Written (key_record table.now key) out.old out.new at result }
{
    let object = object_of(key);
    let place = object * SLOT_WIDTH;
    let kind = table[place];
    let first = put_byte(kind + KIND_STEP, out, at);
    let second = put_body(table, subject_of(key), TEXT_WIDTH, out, first);
    let third = put_body(table, property_of(key), TEXT_WIDTH, out, second);
    let width = body_width(kind);
    put_body(table, object, width, out, third)
}

// How long the page of keys is. Ruled out: the last record left out; records of one length.
pub fn page_length(table: &[u8], keys: &[u64]) -> usize
    requires keys_value { keys_in table.now keys.now ≡ true }
    requires keys_len_bound { length keys.now ≤ quad_limit }
    ensures value { result ≡ length (keys_page table.now keys.now) }
    ensures upper_bound { result ≤ 262144 }
{
    let mut size = 0;
    for &key in keys {
        size += record_length(table, key);
    }
    size
}

// Writes the page of keys. Ruled out: the byte after the page changed; a record written over the one before it.
pub fn write_page(table: &[u8], keys: &[u64], out: &mut [u8])
    requires keys_value { keys_in table.now keys.now ≡ true }
    requires keys_in_bounds { length (keys_page table.now keys.now) ≤ length out.old }
    ensures { out.new ≡ keys_page table.now keys.now
        ++ drop (length (keys_page table.now keys.now)) out.old }
{
    let mut at = 0;
    for &key in keys {
        at = put_record(table, key, out, at);
    }
}

// Puts keys into the order of their records and writes their page, or refuses with 23 and leaves the buffer as it was.
// Ruled out: records in the order of their quads; a buffer written into that is a byte too short.
pub fn publish_keys(table: &[u8], keys: &mut [u64], out: &mut [u8]) -> PublishAnswer
    requires keys_value { keys_in table.now keys.old ≡ true }
    requires keys_len_bound { length keys.old ≤ quad_limit }
    ensures { publish_result out.old (fitted (sorted_page table.now keys.old) (length out.old))
        ≡ record { returned = result; page = out.new } }
{
    let n = keys.len();
    let mut spare = [0u64; QUAD_LIMIT];
    sort_keys(table, keys, &mut spare[0..n]);
    let size = page_length(table, keys);
    if out.len() < size {
        return Err(Refusal::ShortBuffer);
    }
    write_page(table, keys, out);
    Ok(size as u32)
}
