// The list of fetched graphs.
ghost use Rattle.std.specs.Prelude.{◌≡◌, ◌&&◌, ◌≤◌, eqb, length};
ghost use Rattle.std.specs.List.{list_all};
ghost use Rattle.definitions.specs.Lists.{every, distinct};
ghost use Rattle.sound_quads.specs.TermNumbers.{uri_number};

use sound_quads::is_uri;
use table::hashes::is_in;

// Whether the numbers of a list are all different.
fn numbers_distinct(list: &[u16]) -> bool
    ensures { result ≡ distinct eqb list.now }
{
    for (i, &x) in list.iter().enumerate() {
        if is_in(&list[i + 1..], x) {
            return false;
        }
    }
    true
}

// Whether the numbers of a list are those of URIs.
fn all_uris(leasts: &[u8], count: usize, list: &[u16]) -> bool
    requires { count ≤ length leasts.now }
    ensures { result ≡ list_all (uri_number leasts.now count) list.now }
{
    list.iter().all(|&x| is_uri(leasts, count, x))
}

// Whether the fetched graphs are different URIs. Ruled out: one twice; the number of a literal.
pub fn graphs_sound(leasts: &[u8], count: usize, fetched: &[u16]) -> bool
    requires { count ≤ length leasts.now }
    ensures { result ≡ distinct eqb fetched.now && every (uri_number leasts.now count) fetched.now }
{
    if !numbers_distinct(fetched) {
        return false;
    }
    all_uris(leasts, count, fetched)
}
