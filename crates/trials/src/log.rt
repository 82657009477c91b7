// The list of reads: carried in words, a block above its tick, and lent as entries for each call on it.
use model::Entry;

// The entry that a word is. `Entry` is of another crate, so that it can have no `From` here.
fn entry_of(word: u64) -> Entry {
    Entry {
        block: (word / 4294967296) as u32,
        tick: (word % 4294967296) as u32,
    }
}

// The word that an entry is.
fn word_of(entry: Entry) -> u64 {
    u64::from(entry.block) * 4294967296 + u64::from(entry.tick)
}

// The list that the words are.
pub fn unpacked(log: &[u64]) -> [Entry; 4200] {
    let mut list = [Entry { block: 0, tick: 0 }; 4200];
    for (entry, word) in list.iter_mut().zip(log) {
        *entry = entry_of(*word);
    }
    list
}

// Puts the list into the words.
pub fn pack(list: &[Entry], log: &mut [u64]) {
    for (word, entry) in log.iter_mut().zip(list) {
        *word = word_of(*entry);
    }
}
