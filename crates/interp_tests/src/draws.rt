//! The numbers that a run draws, beside those of PCG's reference code.

use search_strategies::Draws;
use std::test::Fail;

/// The first words that PCG's demonstration (`pcg32-demo.c`) prints of the state 42 and the stream 54.
static WORDS: [u32; 6] = [
    0xa15c_02b7,
    0x7b47_f409,
    0xba1d_3330,
    0x83d2_f293,
    0xbfa4_784b,
    0xcbed_606e,
];

/// Below 2^32 - 1 the number of a word W above 0 is W - 1.
#[test]
fn words_are_those_of_the_reference(rt: HostRuntime) -> Result<(), Fail> {
    let mut draws = Draws::new(42, 54);
    for word in WORDS {
        let number = draws.below(u32::MAX);
        assert!(rt; number.checked_add(1) == Some(word), "{number}");
    }
    Ok(())
}
