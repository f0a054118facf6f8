use packed_bits::BitList;
use std::alloc::{AllocError, Global};
use std::test::Fail;

const HIGHEST: u64 = 1 << 63;

// The bits 63 and 65 of 66.
fn two_of_66(alloc: Global) -> Result<BitList, AllocError> {
    let mut bits = vec![in alloc; false; 66]?;
    bits[63] = true;
    bits[65] = true;
    BitList::pack(alloc, bits.as_slice())
}

// Whether a list has these bits and words.
fn has_two_of_66(list: &BitList) -> bool {
    if list.len() != 66 {
        return false;
    }
    let low = list.get(0) || list.get(62);
    let high = (list.get(63), list.get(64), list.get(65));
    !low && high == (true, false, true) && (list.word(0), list.word(1)) == (HIGHEST, 2)
}

// A list is made anew of the words of packed bits: that these fit needs no words to be worked out.
#[test]
fn a_bit_list_gives_back_its_bits_and_words(rt: HostRuntime) -> Result<(), Fail> {
    let packed = two_of_66(rt.alloc())?;
    let len = packed.len();
    let list = BitList::new(packed.into_words(), len);
    assert!(rt; has_two_of_66(&list), "bits and words");
    assert!(rt;
        list.into_words().as_slice() == [HIGHEST, 2].as_slice(),
        "all words"
    );
    Ok(())
}

// How many bits packed bits have, and their words.
fn packed(alloc: Global, bits: &[bool]) -> Result<(u32, Vec<u64>), AllocError> {
    if bits.len() > 100 {
        return Err(AllocError);
    }
    let list = BitList::pack(alloc, bits)?;
    Ok((list.len(), list.into_words()))
}

#[test]
fn bits_are_packed_lowest_first(rt: HostRuntime) -> Result<(), Fail> {
    let (len, words) = packed(rt.alloc(), &[false, true, false, true])?;
    assert!(rt;
        len == 4 && words.as_slice() == [10].as_slice(),
        "four bits"
    );
    let words = two_of_66(rt.alloc())?.into_words();
    assert!(rt; words.as_slice() == [HIGHEST, 2].as_slice(), "66 bits");
    let (len, words) = packed(rt.alloc(), &[])?;
    assert!(rt; len == 0 && words.is_empty(), "no bits");
    Ok(())
}
