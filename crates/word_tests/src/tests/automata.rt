ghost use Rattle.std.specs.Prelude.{◌≡◌, ◌≤◌, length};

use slot_automaton::Automaton;
use std::process::Abort;
use std::test::Fail;

// Pairs of independent operations, of the four from 0 to 3.
const RELATIONS: [&[(u8, u8)]; 12] = [
    &[],
    &[(0, 1)],
    &[(0, 3)],
    &[(1, 2)],
    &[(2, 3)],
    &[(0, 1), (2, 3)],
    &[(0, 2), (1, 3)],
    &[(0, 3), (1, 2)],
    &[(0, 1), (0, 2), (0, 3)],
    &[(0, 1), (1, 2), (2, 3)],
    &[(0, 3), (1, 3), (2, 3), (0, 1)],
    &[(0, 1), (0, 2), (0, 3), (1, 2), (1, 3), (2, 3)],
];

fn is_independent(pairs: &[(u8, u8)], a: u8, b: u8) -> bool {
    pairs.contains(&(a, b)) || pairs.contains(&(b, a))
}

fn mask_of(pairs: &[(u8, u8)], b: u8) -> u64 {
    let mut mask = 0;
    for a in 0..4 {
        if is_independent(pairs, a, b) {
            mask |= 1u64 << a;
        }
    }
    mask
}

// The definition as it stands: each letter `a` is tried with each earlier `b`.
fn is_normal(pairs: &[(u8, u8)], word: &[u8]) -> bool {
    for (last, &a) in word.iter().enumerate() {
        for (first, &b) in word[..last].iter().enumerate() {
            let moves = word[first..last]
                .iter()
                .all(|&x| is_independent(pairs, a, x));
            if a < b && moves {
                return false;
            }
        }
    }
    true
}

fn first_refused_plainly(pairs: &[(u8, u8)], word: &[u8]) -> Option<u32> {
    for (read, _) in word.iter().enumerate() {
        if !is_normal(pairs, &word[..read + 1]) {
            return u32::try_from(read + 1).ok();
        }
    }
    None
}

#[test]
fn only_0_and_2_may_change_places(rt: HostRuntime) -> Result<(), Fail> {
    let automaton = Automaton::new(rt.alloc(), &[4, 0, 1])?;
    for (word, refused) in [
        (b"".as_slice(), None),
        (&[0, 2], None),
        (&[2, 0], Some(2)),
        (&[2, 1, 0], None),
        (&[1, 2, 0, 0], Some(3)),
    ] {
        assert!(rt; word.iter().all(|&op| op < 3));
        assert_eq!(rt; automaton.first_refused(word), refused, "at {word:?}");
    }
    assert_eq!(rt; automaton.start(), 0);
    assert_eq!(rt; automaton.step(0, 2), Some(1));
    assert_eq!(rt; automaton.step(1, 0), None);
    assert_eq!(rt; automaton.step(1, 1), Some(0));
    Ok(())
}

fn agrees_on(rt: &impl Abort, pairs: &[(u8, u8)], automaton: &Automaton, word: &[u8])
    requires known { length automaton.now ≡ 4 }
    requires short { length word.now ≤ 5 }
{
    assert!(rt; word.iter().all(|&op| op < 4));
    let plain = first_refused_plainly(pairs, word);
    assert_eq!(rt;
        automaton.first_refused(word),
        plain,
        "at {pairs:?}, {word:?}"
    );
}

#[test]
fn refuses_as_the_parts_of_a_word_say(rt: HostRuntime) -> Result<(), Fail> {
    for pairs in RELATIONS {
        let masks = [0, 1, 2, 3].map(|b| mask_of(pairs, b));
        let automaton = Automaton::new(rt.alloc(), &masks)?;
        for number in 0..1024u32 {
            let mut word = [0u8; 5];
            let mut left = number;
            for letter in &mut word {
                *letter = (left % 4) as u8;
                left /= 4;
            }
            for len in 0..6 {
                agrees_on(&rt, pairs, &automaton, &word[..len]);
            }
        }
    }
    Ok(())
}
