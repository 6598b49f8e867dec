//! Reports on plan files.
use planfile::report;

const SMALL: [u8; 18] = [1, 0, 0, 6, 0, 12, 0, 4, 0, 0, 2, 2, 1, 0, 1, 3, 0, 1];

// The last pair of the third table has an earlier time than the pair before it.
const FALLING: &[u8; 58] = b"\x03\x00\x00\x10\x00\x0f\x01\x00\x1f\x00\x0c\x02\x00\x2b\x00\x0f\
    \x00\x14\x00\x00\x0e\x03\x04\x00\x06\x08\x00\x03\x0c\x00\x01\
    \x00\x0a\x00\x00\x05\x02\x01\x00\x09\x03\x00\x01\
    \x00\x28\x00\x03\x0c\x03\x01\x00\x07\x06\x00\x02\x03\x00\x01";

#[test]
fn reports_on_files(rt: HostRuntime) {
    let cases: [(&[u8], &[u8]); 5] = [
        (&SMALL, b"place jobs late\n0 1 524288\n"),
        (&[], b"fault 1 20 0\n"),
        (&[0], b"place jobs late\n"),
        (&[0, 0], b"fault 1 23 1\n"),
        (FALLING, b"fault 2 5 55\n"),
    ];
    for (file, text) in cases {
        let mut page = [7; 512];
        let used = report(file, &mut page);
        assert_eq!(rt; &page[0..used], text);
        for byte in &page[used..512] {
            assert_eq!(rt; *byte, 0);
        }
    }
}
