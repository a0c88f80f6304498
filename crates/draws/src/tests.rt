ghost use Rattle.std.specs.Prelude.{◌+◌, ◌≤◌, length};
ghost use Rattle.draws.specs.declared.TheConstants.{PLACES};

use crate::*;

// The words are from outside: a Python program of a few lines that follows RFC 8439, sections 2.1
// to 2.3, with 8 rounds in the place of 20, and was tried on the block of 20 rounds in section
// 2.3.2. The block number is a state's words 12 and 13, and the stream its words 14 and 15.

// The first block of the key, seed and stream of zeros. As bytes it begins 3e00ef2f895f40d6, as in
// the published test vectors of ChaCha with 8 rounds.
const ZEROS: [u32; 16] = [
    0x2fef003e, 0xd6405f89, 0xe8b85b7f, 0xa1a5091f, 0xc30e842c, 0x3b7f9ace, 0x88e11b18, 0x1e1a71ef,
    0x72e14c98, 0x416f21b9, 0x6753449f, 0x19566d45, 0xa3424a31, 0x01b086da, 0xb8fd7b38, 0x42fe0c0e,
];

// The last block of the last person at seed 4711 and iteration 3.
const LAST: [u32; 16] = [
    0x954b7315, 0xc992815a, 0x6eecec61, 0xa786a845, 0x89c4b419, 0x3d13b64e, 0xa2d708b0, 0x0d615f46,
    0xb2ebfd09, 0xf07f7908, 0x469d540d, 0xd7cfc4ab, 0xd81698ba, 0xb56efeb5, 0x1a113663, 0x14b75f7e,
];

// Whether these are the words from a place on.
fn gives(draws: Draws, first: u64, words: &[u32]) -> bool
    requires { first + length words.now ≤ PLACES }
{
    for (place, word) in words.iter().enumerate() {
        if draws.word(first + place as u64) != *word {
            return false;
        }
    }
    true
}

#[test]
fn words_of_the_cipher(rt: HostRuntime) {
    assert!(rt; gives(Draws::of_node(0, 0, 0), 0, &ZEROS));
    let person = Draws::of_person(4711, 3, 65_535);
    assert!(rt; gives(person, PLACES - 16, &LAST));
    assert_eq!(rt; person.word(PLACES - 1), 347561854);
    assert_eq!(rt; Draws::of_person(4711, 3, 7).word(37), 932513287);
    assert_eq!(rt; Draws::of_node(4711, 3, 131_071).word(1616), 3759101385);
}

#[test]
fn choices(rt: HostRuntime) {
    for (word, place) in [
        (0, 0),
        (1_431_655_765, 0),
        (1_431_655_766, 1),
        (u32::MAX, 1),
    ] {
        assert_eq!(rt; pick(&[1000, 2000], word), place, "by {word}");
    }
    assert_eq!(rt; pick(&[0, 5, 0], 0), 1, "a weight of zero is never drawn");
    for (word, number) in [(0, -1800), (2_147_483_648, 0), (u32::MAX, 1800)] {
        assert_eq!(rt; between(-1800, 1800, word), number, "by {word}");
    }
}
