#![tactic(auto)]

// The text form of a link sheet: lines that name parts and links, read into a network's lists.
ghost use Rattle.std.specs.Prelude.{◌≡◌, ◌==◌, true, not, cond, ◌&&◌, List, [], ℕ, ◌*◌, ◌-◌, ◌<◌, ◌≤◌, leb, IfSome, length, get_or};
ghost use Rattle.std.specs.List.{list_all};
ghost use Rattle.sets.specs.Lists.{all, same};
ghost use Rattle.percolation.specs.Ranges.{in_range};
ghost use Rattle.percolation.specs.Links.{Link as PlainLink};
ghost use Rattle.checks.specs.Neighbours.{Neighbours};
ghost use Rattle.checks.specs.Model.{as_link};
ghost use Rattle.link_order.specs.Lent.{link_lists_of, SameLinks};
ghost use Rattle.part_names.specs.Names.{visible};
ghost use Rattle.words.specs.Lines.{blank, words, words_say, part_said};
ghost use Rattle.text.specs.Reading.{is_name, padded, value, is_weight, TextMeets};
ghost use Rattle.text.specs.Model.{Held, found, PartMeets, PartsMeet, FieldsMeet, TakeMeets, LinkMeets, LinksMeet};

mod walk;

use answers::{Answer, Fault, Refusal};
use checks::Link;
use link_order::Links;
use part_names::NameList;
use sheet::Counts;
use walk::Lines;
use words::Form;

// ---- names

// Byte i of a name that is padded with spaces.
fn padded(name: &[u8], i: usize) -> u8
    ensures { result ≡ get_or name.now i 32 }
{
    name.get(i).copied().unwrap_or(b' ')
}

fn all_visible(bytes: &[u8]) -> bool
    ensures { result ≡ list_all visible bytes.now }
{
    bytes.iter().all(|b| part_names::is_visible(*b))
}

// A name's form: 1 to 8 bytes, each visible.
fn is_name(name: &[u8]) -> bool
    ensures { result ≡ is_name name.now }
{
    (1..=8).contains(&name.len()) && all_visible(name)
}

// Writes a name, padded, over the whole slot.
fn put_name(slot: &mut [u8], name: &[u8])
    ensures { slot.new ≡ padded (length slot.old) name.now }
{
    for (i, b) in slot.iter_mut().enumerate() {
        *b = padded(name, i);
    }
}

// Whether the slot holds this name, padded.
fn holds_name(slot: &[u8], name: &[u8]) -> bool
    ensures { result ≡ leb (length name.now) (length slot.now) && same slot.now (padded (length slot.now) name.now) }
{
    slot.starts_with(name) && part_names::only_spaces(&slot[name.len()..])
}

// The first part that has this name.
fn find_name(names: NameList, name: &[u8]) -> Option<usize>
    ensures below { IfSome result (λ q. q < names.entry.count) }
    ensures first { (N : List (List ℕ)) → Held N names.entry.bytes.now → length N ≡ names.entry.count → all (λ b. not (blank b)) name.now ≡ true → result ≡ found N name.now }
{
    (0..names.count).find(|&q| holds_name(names.at(q), name))
}

// ---- pass 1: the parts

// Puts one more name behind those of p parts: 5, 4, 102, and 16 where there is no room for it.
// Pass 1 writes the names, so that it has no NameList of them.
fn put_part(name: &[u8], place: usize, names: &mut [u8], p: usize) -> Answer
    requires { 8 * p ≤ length names.old }
    ensures { (N : List (List ℕ)) → Held N names.old → length N ≡ p → PartMeets N place (part_said name.now) names.old result names.new }
{
    answers::require(is_name(name), Fault::Name, place)?;
    answers::require(checks::narrow_count(p + 1), Fault::PartCount, place)?;
    let list = NameList {
        bytes: names,
        count: p,
    };
    answers::require(find_name(list, name).is_none(), Fault::PartAgain, place)?;
    let at = 8 * p;
    answers::require(at + 8 <= names.len(), Fault::Space, 0)?;
    put_name(&mut names[at..at + 8], name);
    Ok(p + 1)
}

// A line of pass 1: 101, or what a part line's name gets.
fn part_line(line: &[u8], place: usize, names: &mut [u8], p: usize) -> Answer
    requires { 8 * p ≤ length names.old }
    ensures { (N : List (List ℕ)) → Held N names.old → length N ≡ p → PartMeets N place (words_say (words line.now)) names.old result names.new }
{
    match words::form_of(line) {
        Form::Neither => Err(Refusal {
            fault: Fault::LineForm,
            place,
        }),
        Form::Part => put_part(words::word(line, 1), place, names, p),
        Form::Silent => Ok(p),
        Form::Link => Ok(p),
    }
}

// Pass 1: the part count, with eight bytes a part at the start of `names`.
fn read_parts(text: &[u8], names: &mut [u8]) -> Answer
    ensures { PartsMeet text.now names.old result names.new }
{
    let mut p = 0;
    for (place, line) in Lines::new(text) {
        p = part_line(line, place, names, p)?;
    }
    answers::require(p != 0, Fault::PartCount, text.len())?;
    Ok(p)
}

// ---- pass 2: the links

// A digit's value; none for any other byte.
// By hand: `parse` takes a sign and refuses the empty word, which `is_weight` does not.
fn digit(b: u8) -> Option<u16>
    ensures { result ≡ cond (in_range 48 57 b) (Some (b - 48)) None }
{
    if b.is_ascii_digit() {
        Some(u16::from(b - b'0'))
    } else {
        None
    }
}

// A weight's value; none where the word is not all digits or its value is more than a weight can be.
pub fn weight_of(word: &[u8]) -> Option<u16>
    ensures { result ≡ cond (is_weight word.now) (Some (value word.now)) None }
{
    let mut value = 0u16;
    for b in word {
        value = value.checked_mul(10)?.checked_add(digit(*b)?)?;
    }
    Some(value)
}

// The words of a link line: 103 for either name, 6, 104, 7. A fault has no place here: the line's is known to who calls.
fn read_fields(line: &[u8], names: NameList) -> Result<Link<u16>, Fault>
    requires { names.count ≤ 64 }
    ensures { (N : List (List ℕ)) → Held N names.entry.bytes.now → length N ≡ names.entry.count
        → FieldsMeet N (get_or (words line.now) 1 []) (get_or (words line.now) 2 []) (get_or (words line.now) 3 []) result }
{
    let a = find_name(names, words::word(line, 1)).ok_or(Fault::UnknownPart)?;
    let b = find_name(names, words::word(line, 2)).ok_or(Fault::UnknownPart)?;
    if a == b {
        return Err(Fault::LinkParts);
    }
    let weight = weight_of(words::word(line, 3)).ok_or(Fault::WeightForm)?;
    if weight == 0 {
        return Err(Fault::NoWeight);
    }
    // Parts below 64: the casts lose nothing, and a TryFrom would have to be unwrapped.
    Ok(Link {
        low: a.min(b) as u16,
        high: a.max(b) as u16,
        weight,
    })
}

// Takes in a link after m links whose neighbours stand in `seen`: 9, and 16 where there is no room for it.
fn take_link(link: Link<u16>, place: usize, seen: &mut [u64], links: &mut Links, m: usize) -> Answer
    ensures lent { SameLinks links.old links.new }
    ensures taken { TakeMeets (link_lists_of links.old) seen.old m place (as_link link) result (link_lists_of links.new) seen.new }
{
    let wide = Link::from(link);
    if sets::has(sets::at(seen, wide.low), wide.high) {
        return Err(Refusal {
            fault: Fault::LinkAgain,
            place,
        });
    }
    let n = link_order::put(links, m, link).ok_or(Fault::Space)?;
    checks::add_link(seen, wide);
    Ok(n)
}

// A line of pass 2: only a link line changes anything.
fn link_line(
    line: &[u8],
    place: usize,
    names: NameList,
    seen: &mut [u64],
    links: &mut Links,
    m: usize,
) -> Answer
    requires { names.count ≤ 64 }
    ensures lent { SameLinks links.old links.new }
    ensures line { (N : List (List ℕ)) (L : List PlainLink) → Held N names.entry.bytes.now → length N ≡ names.entry.count → Neighbours L seen.old → length L ≡ m
        → LinkMeets N L place (words_say (words line.now)) (link_lists_of links.old) result (link_lists_of links.new) seen.new }
{
    match words::form_of(line) {
        Form::Link => {
            let link = read_fields(line, names).map_err(|fault| Refusal { fault, place })?;
            take_link(link, place, seen, links, m)
        }
        Form::Part => Ok(m),
        Form::Silent => Ok(m),
        Form::Neither => Ok(m),
    }
}

// Pass 2: the link count, with the links at the start of the three lists.
fn read_links(text: &[u8], names: NameList, links: &mut Links) -> Answer
    requires { names.count ≤ 64 }
    ensures lent { SameLinks links.old links.new }
    ensures links { (N : List (List ℕ)) → Held N names.entry.bytes.now → length N ≡ names.entry.count → LinksMeet text.now N (link_lists_of links.old) result (link_lists_of links.new) }
{
    let mut seen = sets::no_rows();
    let mut m = 0;
    for (place, line) in Lines::new(text) {
        m = link_line(line, place, names, &mut seen, links, m)?;
    }
    Ok(m)
}

// Reads a text: its names, eight bytes a part, and its links, lower part first, at the starts of the lent lists. 16 where one of
// them is too short. After a fault whatever stands in the lent lists is free: they serve as work space.
pub fn read(text: &[u8], names: &mut [u8], links: &mut Links) -> Result<Counts, Refusal>
    ensures lent { SameLinks links.old links.new }
    ensures read { TextMeets text.now names.old (link_lists_of links.old) result names.new (link_lists_of links.new) }
{
    let parts = read_parts(text, names)?;
    let list = NameList {
        bytes: names,
        count: parts,
    };
    let links = read_links(text, list, links)?;
    Ok(Counts { parts, links })
}
