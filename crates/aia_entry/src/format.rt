//! What the two words of an entry say, and the words that say it.

ghost use Rattle.std.specs.Prelude.{◌≡◌, ℕ, ◌%◌, ◌^◌, ◌<◌};
ghost use Rattle.aia_entry.specs.Format.{decoded, is_plain_basic, is_plain_mrif, named_identity, basic_word, mrif_word, notice_word};

use crate::Entry;
use aia_regs::{bit, bits};

/// Tells what an entry of the words 0 and 1 says: whether it is valid is looked at first, then
/// whether it is custom, then its mode and its reserved bits. Word 1 is looked at in MRIF mode
/// alone.
pub fn decode(w0: u64, w1: u64) -> Entry
    ensures { result ≡ decoded w0 w1 }
{
    if !bit(w0, 0) {
        return Entry::NotValid;
    }
    if bit(w0, 63) {
        return Entry::Custom;
    }
    match bits(w0, 2, 1) {
        3 if is_plain_basic(w0) => Entry::Basic(bits(w0, 53, 10)),
        1 if is_plain_mrif(w0, w1) => {
            Entry::Mrif(bits(w0, 53, 7) * 512, bits(w1, 53, 10), named_identity(w1))
        }
        _ => Entry::Misconfigured,
    }
}

/// Tells whether the reserved bits of a basic entry's word 0 are 0.
fn is_plain_basic(w0: u64) -> bool
    ensures { result ≡ is_plain_basic w0 }
{
    bits(w0, 9, 3) == 0 && bits(w0, 62, 54) == 0
}

/// Tells whether the reserved bits of both words of an MRIF entry are 0.
fn is_plain_mrif(w0: u64, w1: u64) -> bool
    ensures { result ≡ is_plain_mrif w0 w1 }
{
    bits(w0, 6, 3) == 0 && bits(w0, 62, 54) == 0 && bits(w1, 59, 54) == 0 && bits(w1, 63, 61) == 0
}

/// Gives the identity of the notices of an MRIF entry, 0 to `IDENTITIES`.
fn named_identity(w1: u64) -> u32
    ensures { result ≡ named_identity w1 }
{
    (bits(w1, 9, 0) + 1024 * bits(w1, 60, 60)) as u32
}

/// Gives word 0 of the basic entry for the page of number `ppn`, below `2^44`; its word 1 may be
/// any.
pub fn basic(ppn: u64) -> u64
    requires { ppn < 2 ^ 44 }
    ensures { result ≡ basic_word ppn }
{
    ppn * 1024 + 7
}

/// Gives the words of the MRIF entry for the memory-resident interrupt file at `addr`, a multiple
/// of 512 below `2^56`, with notices to the page of number `nppn`, below `2^44`, of the identity
/// `nid`, below 2048.
pub fn mrif(addr: u64, nppn: u64, nid: u32) -> (u64, u64)
    requires aligned { addr % 512 ≡ 0 }
    requires place { addr < 2 ^ 56 }
    requires page { nppn < 2 ^ 44 }
    requires identity { nid < 2048 }
    ensures word0 { result.0 ≡ mrif_word addr }
    ensures word1 { result.1 ≡ notice_word nppn nid }
{
    let nid = u64::from(nid);
    (
        addr / 4 + 3,
        nppn * 1024 + nid % 1024 + ((nid / 1024) << 60),
    )
}
