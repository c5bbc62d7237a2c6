// The number that a decimal word says.

const LARGEST: usize = 9007199254740999;

// The number of a word of digits; none above the largest.
pub fn decimal(word: &[u8]) -> Option<usize> {
    if !word.iter().all(|b| b.is_ascii_digit()) {
        return None;
    }
    let number = str::from_utf8(word).ok()?.parse::<usize>().ok()?;
    (number <= LARGEST).then_some(number)
}
