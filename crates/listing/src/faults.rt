use hints::may_follow;
use rules::{LoadFault, Refusal};
use std::alloc::{AllocError, Global};
use words::{KINDS, Kind, Word};

// The kinds of word that may stand after the words.
fn kinds_after(heap: Global, before: &[u32]) -> Result<String, AllocError> {
    let mut text = String::new(heap);
    for kind in KINDS {
        if may_follow(heap, before, kind)? {
            if !text.is_empty() {
                text.push_str(", ")?;
            }
            write!(text, "{kind}")?;
        }
    }
    Ok(text)
}

// The bits below the kind that words of this kind may set.
fn usable_bits(kind: Kind) -> u32 {
    (0..28)
        .map(|i| 1u32 << i)
        .filter(|bit| (Word {
            kind,
            payload: *bit,
        })
        .is_clean())
        .fold(0, |bits, bit| bits | bit)
}

// What a number or an amount may be, for the kind of word that has one too large.
fn limits(kind: Kind) -> &'static str {
    match kind {
        Kind::Var => "a variable is 0 to 7",
        Kind::Guard => "a guard's test is 0 to 3, and a rule has at most 4 guards",
        Kind::Kept | Kind::Taken => "a head has 0 to 3 operands, and a rule has at most 3 heads",
        Kind::Body => "a body fact has 0 to 3 terms, and a rule has at most 3 body facts",
        _ => "a table has at most 32 rules",
    }
}

// The label of the last rule that begins in the words; 0 if none does.
fn last_label(words: &[u32]) -> u16 {
    words
        .iter()
        .rev()
        .map(|bits| Word::from(*bits))
        .find(|word| word.is(Kind::Rule))
        .map_or(0, |word| word.label())
}

// What is wrong with a word that stands after others, and what could have stood there.
fn what_is_wrong(
    heap: Global,
    fault: LoadFault,
    word: Word,
    before: &[u32],
) -> Result<String, AllocError> {
    let kind = word.kind;
    let label = word.label();
    let last = last_label(before);
    match fault {
        LoadFault::OutOfTurn => {
            let kinds = kinds_after(heap, before)?;
            format!(in heap; "is {kind}, which is out of turn; here may stand {kinds}")
        }
        LoadFault::StrayBit => format!(in heap;
            "sets a bit that {kind} may not use; below its kind it may set 0x{:07X}",
            usable_bits(kind)
        ),
        LoadFault::OutOfRange => format!(in heap;
            "has a number or an amount out of range; {}",
            limits(kind)
        ),
        LoadFault::Unbound => format!(in heap;
            "is variable {}, which stands in no head of rule {last}; here may stand a variable of its heads",
            word.count()
        ),
        LoadFault::NoTaken => format!(in heap;
            "begins rule {label}, which takes no fact; at least one of its heads must be TAKEN"
        ),
        LoadFault::Label => format!(in heap;
            "has label {label}; a label is 1 to 65535 and above the last, here {last}"
        ),
    }
}

// A refused load in plain words: which word, what is wrong with it, and what could have stood there.
pub(crate) fn explain(heap: Global, words: &[u32], refusal: Refusal) -> Result<String, AllocError> {
    let place = refusal.place;
    let Some(&bits) = words.get(place) else {
        let kinds = kinds_after(heap, words)?;
        return format!(in heap;
            "word {place} is missing: the words end before END; here may stand {kinds}"
        );
    };
    let wrong = what_is_wrong(heap, refusal.fault, Word::from(bits), &words[..place])?;
    format!(in heap; "word {place} (0x{bits:08X}) {wrong}")
}
