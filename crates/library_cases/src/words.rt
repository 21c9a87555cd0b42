// The fields of a line, and the words of a field.

/// A field of a line, by its number from 0: empty where there is none.
pub fn field(line: &str, number: usize) -> &str {
    line.split(" :: ").nth(number).unwrap_or("")
}

/// The first word of a field, and what stands behind the space after it.
pub fn first_word(field: &str) -> (&str, &str) {
    field.split_once(' ').unwrap_or((field, ""))
}

/// A number, of which `max` is the largest. A word that is none counts as 0.
pub fn number(word: &str) -> u64 {
    if word == "max" {
        u64::MAX
    } else {
        word.parse::<u64>().unwrap_or(0)
    }
}
