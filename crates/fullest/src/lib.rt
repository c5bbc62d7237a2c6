#![tactic(auto)]

// The fullest sheet of a part count: all pairs linked at weight 1, names P00, P01 and on.
ghost use Rattle.std.specs.Prelude.{◌≡◌, ◌*◌, ◌/◌, ◌%◌, ◌<◌, ◌≤◌, length, get_or, take};
ghost use Rattle.fullest.specs.Fullest.{part_name, part_names, FullMeets};

use answers::{Answer, Fault};

// ---- names

// Byte i of the names.
#[tactic(auto, using(crate::proofs::PartNames::byte_space), unfolding(crate::specs::Fullest::part_name))]
fn name_byte(i: usize) -> u8
    requires { i < 512 }
    ensures { result ≡ get_or (part_name (i / 8)) (i % 8) 0 }
{
    // Below 64: the cast loses nothing.
    let q = (i / 8) as u8;
    match i % 8 {
        0 => b'P',
        1 => b'0' + q / 10,
        2 => b'0' + q % 10,
        _ => b' ',
    }
}

// The names of p parts, at the start of the list.
#[tactic(auto, using(crate::proofs::PartNames::named_more, crate::proofs::PartNames::named_all))]
fn name_parts(p: usize, names: &mut [u8])
    requires { (p ≤ 64) × (length names.old ≡ 512) }
    ensures { take (8 * p) names.new ≡ part_names p }
{
    // By number, which gives the byte: enumerate over the part would give the same number in a longer line.
    for i in 0..8 * p {
        names[i] = name_byte(i);
    }
}

// ---- the sheet

// Writes the fullest sheet of p parts to the start of out: 4, 10, then 16. The count is that of the bytes. k is checked only, for a run that is to follow.
#[tactic(auto, using(sheet::proofs::Said::in_turn), unfolding(crate::specs::Fullest::check_full))]
pub fn sheet(p: usize, k: usize, out: &mut [u8]) -> Answer
    ensures { FullMeets p k out.old result out.new }
{
    answers::require(checks::narrow_count(p), Fault::PartCount, 0)?;
    answers::require(checks::good_k(k), Fault::CliqueSize, 0)?;
    let mut names = [0u8; 512];
    name_parts(p, &mut names);
    let ones = [1u16; 4096];
    made::write_weighed(&names[..8 * p], p, &ones, out)
}
