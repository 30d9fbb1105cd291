use crate::{Cube, Pattern};

#[test]
fn bits_are_joined_cut_and_placed(rt: HostRuntime) {
    let high = Pattern {
        width: 3,
        word: 0b101,
    };
    let low = Pattern {
        width: 5,
        word: 0b00011,
    };
    let both = high.join(low);
    assert_eq!(rt;
        both,
        Pattern {
            width: 8,
            word: 0xA3
        }
    );
    assert_eq!(rt; both.cut(5, 3), high);
    assert_eq!(rt; both.cut(0, 5), low);
    assert_eq!(rt; both.cut(8, 0), Pattern { width: 0, word: 0 });
    assert_eq!(rt;
        both.place(
            4,
            Pattern {
                width: 2,
                word: 0b01
            }
        ),
        Pattern {
            width: 8,
            word: 0b10010011
        }
    );
    let whole = Pattern {
        width: 64,
        word: u64::MAX,
    };
    let none = Pattern { width: 0, word: 0 };
    assert_eq!(rt; none.join(whole), whole);
    assert_eq!(rt; whole.join(none), whole);
    assert_eq!(rt; whole.cut(0, 64), whole);
    assert_eq!(rt; whole.cut(64, 0), none);
}

#[test]
fn a_load_and_any_byte_first_meet_at_40(rt: HostRuntime) {
    let load = Cube {
        width: 8,
        mask: 0b1100_0000,
        value: 0b0100_0000,
    };
    let any = Cube {
        width: 8,
        mask: 0,
        value: 0,
    };
    assert_eq!(rt;
        load.meets(any),
        Some(Pattern {
            width: 8,
            word: 0b0100_0000
        })
    );
    assert!(rt;
        load.has(Pattern {
            width: 8,
            word: 0x7F
        })
    );
    assert!(rt;
        !load.has(Pattern {
            width: 8,
            word: 0x80
        })
    );
    let go = Cube {
        width: 8,
        mask: 0b1111_1110,
        value: 0,
    };
    let stop = Cube {
        width: 8,
        mask: 0xFF,
        value: 0x80,
    };
    assert_eq!(rt; go.meets(stop), None);
}

#[test]
fn a_cube_is_put_together_from_fixed_and_free_members(rt: HostRuntime) {
    let tag = Cube::fixed(Pattern { width: 2, word: 1 });
    let load = tag.join(Cube::free(6));
    assert_eq!(rt;
        load,
        Cube {
            width: 8,
            mask: 0b1100_0000,
            value: 0b0100_0000
        }
    );
    assert_eq!(rt; load.first(), Some(false));
    assert_eq!(rt; Cube::free(64).first(), None);
}

#[test]
fn a_cube_is_taken_apart_bit_by_bit(rt: HostRuntime) {
    let go = Cube {
        width: 3,
        mask: 0b101,
        value: 0b001,
    };
    assert_eq!(rt; go.after(true), None);
    assert_eq!(rt;
        go.after(false),
        Some(Cube {
            width: 2,
            mask: 1,
            value: 1
        })
    );
    assert_eq!(rt; Cube::free(64).after(true), Some(Cube::free(63)));
}
