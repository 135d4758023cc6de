//! The calls, as C makes them.

use crate::handle::Handle;
use crate::hosts::{aia_csr, aia_load, aia_machine, aia_store};
use crate::names::aia_code_name;
use crate::{aia_close, aia_line, aia_open, aia_replay, aia_reset, aia_text};

#[test]
fn an_open_handle_answers_and_a_closed_one_does_not(rt: HostRuntime) {
    let mut handle = Handle::closed();
    let (mut narrow, mut wide) = (7, 7);
    assert_eq!(rt; aia_store(&mut handle, 0x2800_0000, 5, rt.alloc()), 2);
    assert_eq!(rt; aia_open(&mut handle, rt.alloc()), 0);
    assert_eq!(rt; aia_open(&mut handle, rt.alloc()), 3);
    assert_eq!(rt;
        aia_load(&mut handle, 0x2800_0000, &mut narrow, rt.alloc()),
        16
    );
    assert_eq!(rt; aia_machine(&mut handle, 1, 0, 63, 1, rt.alloc()), 0);
    assert_eq!(rt; aia_machine(&mut handle, 1, 0, 63, 1, rt.alloc()), 17);
    assert_eq!(rt; aia_store(&mut handle, 0x2800_0000, 5, rt.alloc()), 0);
    assert_eq!(rt;
        aia_csr(&mut handle, 0, 0x150, 1, 0x80, &mut wide, rt.alloc()),
        0
    );
    assert_eq!(rt;
        aia_csr(&mut handle, 0, 0x151, 0, 0, &mut wide, rt.alloc()),
        0
    );
    assert_eq!(rt; wide, 0x20);
    assert_eq!(rt;
        aia_csr(&mut handle, 0, 0x151, 4, 0, &mut wide, rt.alloc()),
        5
    );
    assert_eq!(rt; wide, 0);
    aia_close(&mut handle, rt.alloc());
    assert_eq!(rt; aia_store(&mut handle, 0x2800_0000, 5, rt.alloc()), 2);
}

#[test]
fn texts_and_scripts_are_answered_into_the_room(rt: HostRuntime) {
    let mut handle = Handle::closed();
    let mut room = [0u8; 80];
    let mut small = [0u8; 63];
    let (mut taken, mut written) = (7, 7);
    let script = b"machine 1 0 63 1\npins 0\npins 0";
    assert_eq!(rt; aia_open(&mut handle, rt.alloc()), 0);
    let code = aia_line(&mut handle, b"pins 0", &mut room, &mut written, rt.alloc());
    assert_eq!(rt; code, 0);
    assert_eq!(rt; &room[..written.min(80)], b"nomachine\n".as_slice());
    let code = aia_replay(
        &mut handle,
        script,
        &mut taken,
        &mut room,
        &mut written,
        rt.alloc(),
    );
    assert_eq!(rt; (code, taken), (0, script.len()));
    assert_eq!(rt;
        &room[..written.min(80)],
        b"ok\npins 0 0 0 0\npins 0 0 0 0\n".as_slice()
    );
    let code = aia_replay(
        &mut handle,
        script,
        &mut taken,
        &mut small,
        &mut written,
        rt.alloc(),
    );
    assert_eq!(rt; (code, taken, written), (4, 0, 0));
    aia_close(&mut handle, rt.alloc());
}

#[test]
fn a_handle_that_is_reset_has_no_machine(rt: HostRuntime) {
    let mut handle = Handle::closed();
    assert_eq!(rt; aia_reset(&mut handle, rt.alloc()), 2);
    assert_eq!(rt; aia_open(&mut handle, rt.alloc()), 0);
    assert_eq!(rt; aia_machine(&mut handle, 1, 0, 63, 1, rt.alloc()), 0);
    assert_eq!(rt; aia_reset(&mut handle, rt.alloc()), 0);
    assert_eq!(rt; aia_store(&mut handle, 0x2800_0000, 5, rt.alloc()), 16);
    assert_eq!(rt; aia_machine(&mut handle, 2, 0, 63, 1, rt.alloc()), 0);
    aia_close(&mut handle, rt.alloc());
}

#[test]
fn a_text_says_the_code_of_its_answer(rt: HostRuntime) {
    let mut handle = Handle::closed();
    let mut room = [0u8; 64];
    let mut written = 7;
    assert_eq!(rt; aia_open(&mut handle, rt.alloc()), 0);
    let code = aia_text(&mut handle, b"pins 0", &mut room, &mut written, rt.alloc());
    assert_eq!(rt; code, 16);
    assert_eq!(rt; &room[..written.min(64)], b"nomachine\n".as_slice());
    let code = aia_text(
        &mut handle,
        b"nonsense",
        &mut room,
        &mut written,
        rt.alloc(),
    );
    assert_eq!(rt; code, 19);
    let code = aia_text(
        &mut handle,
        b"# nothing",
        &mut room,
        &mut written,
        rt.alloc(),
    );
    assert_eq!(rt; (code, written), (0, 0));
    aia_close(&mut handle, rt.alloc());
}

#[test]
fn a_code_has_the_word_of_its_answer(rt: HostRuntime) {
    let mut name = [0u8; 64];
    let mut written = 7;
    assert_eq!(rt; aia_code_name(38, &mut name, &mut written), 0);
    assert_eq!(rt; &name[..written.min(64)], b"nofile".as_slice());
    assert_eq!(rt; aia_code_name(-1, &mut name, &mut written), 5);
    assert_eq!(rt; written, 0);
    assert_eq!(rt; aia_code_name(19, &mut name[..63], &mut written), 4);
}
