// The functions for callers in other languages, over numbers and byte slices. include/ayokwelifu.h declares them for C.
#![tactic(auto)]

mod lines;

ghost use Rattle.std.specs.Prelude.{◌≡◌, length};
ghost use Rattle.placing.specs.Placing.{wrote, written};
ghost use Rattle.listing.specs.Scripts.{listing};
ghost use Rattle.refusals.specs.Numbers.{number_of};
ghost use Rattle.ayokwelifu.specs.Answers.{cell_after};

use listing::{list_all, listing_length};
use refusals::{Refusal, number_of};

// What a cell holds after a writer: how many bytes it wrote, or what the cell held.
pub(crate) fn cell_after(old: u64, wrote: Result<usize, Refusal>) -> u64
    ensures { result ≡ cell_after old wrote }
{
    match wrote {
        Ok(n) => n as u64, // std has no conversion by `From`
        Err(_) => old,
    }
}

// The length of the script's listing goes to the cell.
#[unsafe(no_mangle)]
pub extern "C" fn ayokwelifu_listing_length(script: &[u8], count: &mut u64) -> u16
    ensures { (result ≡ 0) × (count.new ≡ length (listing script.now)) }
{
    *count = listing_length(script) as u64;
    0
}

// The script's listing goes to the start of the buffer and its length to the cell, or 27 and both as they were.
#[unsafe(no_mangle)]
pub extern "C" fn ayokwelifu_list(script: &[u8], out: &mut [u8], count: &mut u64) -> u16
    ensures number { result ≡ number_of (wrote (listing script.now) 0 out.old) }
    ensures cell { count.new ≡ cell_after count.old (wrote (listing script.now) 0 out.old) }
    ensures buffer { out.new ≡ written (listing script.now) 0 out.old }
{
    let w = list_all(script, out);
    *count = cell_after(*count, w);
    number_of(w)
}
