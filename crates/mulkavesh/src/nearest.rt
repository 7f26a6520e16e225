//! The word that somebody meant who wrote another one, by how little of the two differs.

// How many bytes the two have in common at their beginnings.
fn common_front(one: &[u8], other: &[u8]) -> usize {
    let mut count: usize = 0;
    'bytes: for (a, b) in one.iter().zip(other.iter()) {
        if a != b {
            return count;
        }
        count = count.saturating_add(1);
    }
    count
}

// How many bytes the two have in common at their ends.
fn common_end(one: &[u8], other: &[u8]) -> usize {
    let mut count: usize = 0;
    'bytes: for (a, b) in one.iter().rev().zip(other.iter().rev()) {
        if a != b {
            return count;
        }
        count = count.saturating_add(1);
    }
    count
}

// How many bytes of the longer one stand between what they have in common at both ends; none where one begins with the other, and is over half of it.
fn distance(one: &[u8], other: &[u8]) -> usize {
    let long = one.len().max(other.len());
    let short = one.len().min(other.len());
    let front = common_front(one, other);
    if front == short && short > long / 2 {
        return 0;
    }
    let same = front.saturating_add(common_end(one, other));
    long.saturating_sub(same.min(short))
}

/// Of these words the first that differs least, where little differs.
pub(crate) fn nearest(word: &str, words: &[&'static str]) -> Option<&'static str> {
    let mut found = None;
    let mut least = 3.min(word.len() / 2 + 1);
    'words: for it in words {
        let far = distance(word.as_bytes(), it.as_bytes());
        if far < least {
            least = far;
            found = Some(*it);
        }
    }
    found
}
