// Tapes and what inspect prints of them.
use listing::listing;
use std::test::Fail;

const TAPES: [(&[u8], &str); 27] = [
    (b"", "refused 71 tape 0\n"),
    (b"\x00", "refused 72 tape 0\n"),
    (b"\xff\xff", "refused 72 tape 0\n"),
    (b"\x50\x00", "refused 72 tape 1\n"),
    (b"\x46\x00\x01\x00", "refused 72 tape 3\n"),
    (b"\x50", "refused 71 tape 1\n"),
    (b"\x50\x54\x00", "refused 71 tape 1\n"),
    (b"\x50\x54\x00\x01\x00\x01\x00", "refused 71 tape 1\n"),
    (b"\x54", "refused 73 tape 0\n"),
    (b"\x45", "refused 73 tape 0\n"),
    (b"\x57", "refused 73 tape 0\n"),
    (b"\x50\x45", "refused 73 tape 1\n"),
    (b"\x46\x00\x01\x45\x45", "refused 74 tape 4\n"),
    (b"\x46\x00\x01\x45\x00\x00", "refused 74 tape 4\n"),
    (b"\x46\x00\x01", "refused 71 tape 3\n"),
    (b"\x46\x00", "refused 71 tape 0\n"),
    (b"\x46\x00\x01\x46\x00\x01\x45", "refused 73 tape 3\n"),
    (b"\x46\x00\x01\x50\x45", "refused 73 tape 3\n"),
    (b"\x46\x00\x01\x54", "refused 73 tape 3\n"),
    (b"\x46\x00\x00\x45", "refused 51 windows 0\n"),
    (b"\x46\x04\x01\x45", "refused 51 windows 0\n"),
    (b"\x46\x04\x00\x45", "frame 1024\n"),
    (b"\x50\x54\x00\x00\x00\x01\x00\x01", "refused 14 draft 1\n"),
    (
        b"\x50\x54\xff\xff\xff\xff\xff\xff\x46",
        "refused 14 draft 1\n",
    ),
    (
        b"\x50\x54\x10\x00\x10\x00\x10\x00\x46\x00\x01\x45",
        "partition\ntask 4096 4096 4096\nframe 1\n",
    ),
    (
        b"\x46\x00\x0a\x57\x00\x00\x00\x00\x04\x57\x01\x00\x03\x00\x01\x45",
        "refused 54 windows 9\n",
    ),
    (
        b"\x46\x00\x0a\x57\x07\x00\x00\x00\x0a\x45",
        "frame 10\nwindow 7 0 10\n",
    ),
];

#[test]
fn tapes_as_printed(rt: HostRuntime) -> Result<(), Fail> {
    for (tape, want) in TAPES {
        let text = listing(rt.alloc(), tape)?;
        assert_eq!(rt; text.as_str(), want);
    }
    Ok(())
}
