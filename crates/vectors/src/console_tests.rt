// Lines and responses.
use base::Refusal;
use console::{Console, Line};
use std::alloc::Global;
use std::test::Fail;

#[test]
fn lines(rt: HostRuntime) {
    let mut places = [b'.'; 12];
    assert_eq!(rt;
        Line::items(31).write(&mut places[0..8]),
        Err(Refusal::TooFewPlaces)
    );
    assert!(rt; places == *b"............");
    assert_eq!(rt; Line::items(31).write(&mut places), Ok(9));
    assert!(rt; places == *b"items 31\n...");
    assert_eq!(rt; Line::common(0).write(&mut places), Ok(7));
    assert!(rt; places == *b"common\n1\n...");
    assert_eq!(rt;
        Line::core(0x8000_0001).as_slice(),
        b"core 0 31\n".as_slice()
    );
    assert_eq!(rt; Line::common(0b110).as_slice(), b"common 1 2\n".as_slice());
    assert_eq!(rt;
        Line::refused(Refusal::JointWord(12345)).as_slice(),
        b"refused 7 12345\n".as_slice()
    );
    assert_eq!(rt;
        Line::refused(Refusal::MissingWord(usize::MAX)).as_slice(),
        b"refused 1 18446744073709551615\n".as_slice()
    );
}

// The words as bytes, the highest first.
fn bytes(heap: Global, words: &[u64]) -> Result<Vec<u8>, Fail> {
    let mut bytes = Vec::new(heap);
    for word in words {
        bytes.extend_from_slice(&word.to_be_bytes())?;
    }
    Ok(bytes)
}

#[test]
fn responses(rt: HostRuntime) -> Result<(), Fail> {
    let heap = rt.alloc();
    let table: [(&[u64], &[u8]); 9] = [
        (
            &[3, 3, 0, 0, 0, 4, 256, 513, 2, 256],
            b"items 4\ncommon\ncore 0 1 2\ncore 0 3\ncore 1 2 3\n",
        ),
        (&[3, 3, 0, 0, 0, 2, 256, 513], b"refused 12 0\n"),
        (&[3, 2, 0, 0, 2, 256, 1], b"items 2\ncommon 0 1\ncore 0 1\n"),
        (&[], b"refused 15 0\n"),
        (&[0], b"refused 15 0\n"),
        (&[u64::MAX, 0, 0], b"refused 15 0\n"),
        (&[3], b"refused 1 0\n"),
        (&[3, 33], b"refused 3 0\n"),
        (&[3, 0, 0, 0], b"refused 5 2\n"),
    ];
    for (words, text) in table {
        let input = bytes(heap, words)?;
        let mut out = [b'.'; 64];
        let answer = Console::new(heap)?.respond(input.as_slice(), &mut out);
        assert_eq!(rt; answer, Ok(text.len()));
        assert!(rt; out.starts_with(text));
        assert_eq!(rt; out[63], b'.');
        let mut short = [b'.'; 12];
        let answer = Console::new(heap)?.respond(input.as_slice(), &mut short);
        if text.len() > 12 {
            assert_eq!(rt; answer, Err(Refusal::TooFewPlaces));
            assert!(rt; short == [b'.'; 12]);
        } else {
            assert_eq!(rt; answer, Ok(text.len()));
        }
    }
    Ok(())
}

#[test]
fn lengths(rt: HostRuntime) -> Result<(), Fail> {
    let heap = rt.alloc();
    for (len, text) in [
        (1usize, b"refused 14 0\n"),
        (7, b"refused 14 0\n"),
        (9, b"refused 14 0\n"),
        (24655, b"refused 14 0\n"),
        (24656, b"refused 15 0\n"),
        (24657, b"refused 15 0\n"),
        (30001, b"refused 15 0\n"),
    ] {
        let input = vec![in heap; 0u8; len]?;
        let mut out = [b'.'; 16];
        let answer = Console::new(heap)?.respond(input.as_slice(), &mut out);
        assert_eq!(rt; answer, Ok(13));
        assert!(rt; out.starts_with(text));
    }
    Ok(())
}

#[test]
fn texts_of_refusals(rt: HostRuntime) -> Result<(), Fail> {
    for (refusal, text) in [
        (Refusal::JointWord(12345), "refused 7 12345"),
        (Refusal::GetsNo, "refused 12 0"),
    ] {
        assert_eq!(rt; format!(in rt.alloc(); "{refusal}")?.as_str(), text);
    }
    Ok(())
}
