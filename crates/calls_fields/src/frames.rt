//! Each call once; cases stand in rows (frame.rows).

ghost use Rattle.std.specs.Prelude.{◌≡◌, ◌≤◌, IfOk, vec_len};

use corr_text::List;
use fin_frame::{Cutter, FrameFault, PieceCutter, Place, cut_whole};
use std::alloc::Global;
use std::test::Fail;

#[test]
fn a_file_is_cut(rt: HostRuntime) {
    let mut out = List::new(rt.alloc());
    let mut cutter = Cutter::new(rt.alloc());
    assert_eq!(rt; cutter.feed(b"{1:}\n{1:", &mut out), Ok(()));
    assert_eq!(rt; cutter.begun(), 2);
    assert_eq!(rt; out.as_slice().len(), 1);
    assert_eq!(rt; out.as_slice()[0].bytes(), b"{1:}".as_slice());
    assert_eq!(rt;
        cutter.finish(&mut out),
        Err(FrameFault::Unbalanced { at: 5 })
    );
}

#[test]
fn a_fault_comes_again(rt: HostRuntime) {
    let mut out = List::new(rt.alloc());
    let mut cutter = Cutter::new(rt.alloc());
    let stray = Err(FrameFault::Stray { at: 5 });
    assert_eq!(rt; cutter.feed(b"{1:}\nx", &mut out), stray);
    assert_eq!(rt; cutter.finish(&mut out), stray);
}

#[test]
fn a_whole_file_is_cut_at_once(rt: HostRuntime) {
    let Ok(Some(messages)) = cut_whole(rt.alloc(), b"{1:}\n{1:}{4:}", 2) else {
        assert!(rt; false);
        return;
    };
    assert_eq!(rt; messages.as_slice().len(), 2);
    assert_eq!(rt; messages.as_slice()[1].bytes(), b"{1:}{4:}".as_slice());
}

#[test]
fn more_messages_than_asked_for_are_no_cut(rt: HostRuntime) {
    assert!(rt; matches!(cut_whole(rt.alloc(), b"{1:}{1:}", 1), Ok(None)));
}

#[test]
fn a_piece_is_cut_by_places(rt: HostRuntime) -> Result<(), Fail> {
    let mut places = Vec::with_capacity(rt.alloc(), 3)?;
    let mut cutter = PieceCutter::new();
    let piece = b"{1:}\n{1:}{4:}{1:}";
    // the last message may go on
    assert_eq!(rt; cutter.cut_piece(piece, false, 3, &mut places), Some(13));
    let two = [Place { from: 0, len: 4 }, Place { from: 5, len: 8 }];
    assert_eq!(rt; places.as_slice(), two.as_slice());
    assert_eq!(rt; two[1].of(piece), b"{1:}{4:}".as_slice());
    places.clear();
    assert_eq!(rt; cutter.cut_piece(b"{1:}", true, 3, &mut places), Some(4));
    assert_eq!(rt; places.as_slice(), [Place { from: 0, len: 4 }].as_slice());
    Ok(())
}

#[test]
fn a_message_comes_in_three_pieces(rt: HostRuntime) -> Result<(), Fail> {
    let mut places = Vec::with_capacity(rt.alloc(), 1)?;
    let mut cutter = PieceCutter::new();
    assert_eq!(rt; cutter.cut_piece(b"", false, 1, &mut places), Some(0));
    places.clear();
    assert_eq!(rt; cutter.cut_piece(b"{", false, 1, &mut places), Some(0));
    places.clear();
    assert_eq!(rt; cutter.cut_piece(b"{1:}{", false, 1, &mut places), Some(0));
    assert!(rt; places.is_empty());
    assert_eq!(rt;
        cutter.cut_piece(b"{1:}{4:}$", false, 1, &mut places),
        Some(9)
    );
    assert_eq!(rt; places.as_slice(), [Place { from: 0, len: 8 }].as_slice());
    Ok(())
}

#[test]
fn more_messages_than_asked_for_are_left(rt: HostRuntime) -> Result<(), Fail> {
    let mut places = Vec::with_capacity(rt.alloc(), 1)?;
    let mut cutter = PieceCutter::new();
    assert_eq!(rt;
        cutter.cut_piece(b"{1:}{1:}{1:}", true, 1, &mut places),
        Some(4)
    );
    assert_eq!(rt; places.as_slice(), [Place { from: 0, len: 4 }].as_slice());
    Ok(())
}

// A message of so many bytes.
fn message(alloc: Global, len: usize) -> Result<Vec<u8>, Fail>
    requires { 4 ≤ len }
    ensures { IfOk result (λ bytes. vec_len bytes ≡ len) }
{
    let mut bytes = vec![in alloc; b'x'; len]?;
    bytes[0] = b'{';
    bytes[1] = b'1';
    bytes[2] = b':';
    bytes[len - 1] = b'}';
    Ok(bytes)
}

#[test]
fn a_piece_is_cut_up_to_the_limit_of_a_message(rt: HostRuntime) -> Result<(), Fail> {
    let mut places = Vec::with_capacity(rt.alloc(), 1)?;
    let most = message(rt.alloc(), 16_384)?;
    let more = message(rt.alloc(), 16_385)?;
    // it may go on
    assert_eq!(rt;
        PieceCutter::new().cut_piece(most.as_slice(), false, 1, &mut places),
        Some(0)
    );
    places.clear();
    assert_eq!(rt;
        PieceCutter::new().cut_piece(more.as_slice(), false, 1, &mut places),
        None
    );
    places.clear();
    assert_eq!(rt;
        PieceCutter::new().cut_piece(most.as_slice(), true, 1, &mut places),
        Some(16_384)
    );
    assert_eq!(rt;
        places.as_slice(),
        [Place {
            from: 0,
            len: 16_384
        }]
        .as_slice()
    );
    Ok(())
}

#[test]
fn a_cutter_goes_on_where_one_of_pieces_stands(rt: HostRuntime) -> Result<(), Fail> {
    let mut places = Vec::with_capacity(rt.alloc(), 2)?;
    let mut pieces = PieceCutter::new();
    assert_eq!(rt;
        pieces.cut_piece(b"{1:}{1:", false, 2, &mut places),
        Some(4)
    );
    let (mut cutter, fed) = Cutter::resumed(rt.alloc(), &pieces, b"{1:}x")?;
    assert_eq!(rt; fed, 3);
    let mut out = List::new(rt.alloc());
    let stray = Err(FrameFault::Stray { at: 8 });
    assert_eq!(rt; cutter.feed(b"}x", &mut out), stray);
    assert!(rt; out.as_slice().is_empty());
    Ok(())
}
