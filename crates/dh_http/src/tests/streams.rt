//! Streams, and what they answer.

pub(super) const STATED: &[u8] =
    b"HTTP/1.1 200 OK\r\nContent-Length: 1\r\nAccess-Control-Allow-Origin: *\r\n\r\n3";

pub(super) const CHUNKED: &[u8] =
    b"HTTP/1.1 200 OK\r\nTransfer-Encoding: chunked\r\n\r\n1\r\n3\r\n0\r\n\r\n";

pub(super) const WITH_TRAILER: &[u8] =
    b"HTTP/1.1 200 OK\r\nTransfer-Encoding: chunked\r\n\r\n1;a=b\r\n3\r\n000\r\nX: y\r\nZ:\r\n\r\n";

/// Streams up to the byte that decides, with the text that is found, or the status of the answer.
pub(super) const DECIDED: [(&[u8], Option<&[u8]>, u16); 25] = [
    (STATED, Some(b"3"), 200),
    (CHUNKED, Some(b"3"), 200),
    (WITH_TRAILER, Some(b"3"), 200),
    (
        b"HTTP/1.1 200 OK\r\nContent-Length: 0\r\n\r\n",
        Some(b""),
        200,
    ),
    (b"HTTP/1.1 404 Not Found\r\n\r\n", None, 404),
    (b"HTTP/1.1 302 Found\r\nLocation: /b\r\n\r\n", None, 302),
    (b"HTTP/1.1 100 Continue\r\n\r\n", None, 100),
    (
        b"HTTP/1.1 500 Oops\r\nContent-Length: 1\r\nContent-Length: 1\r\n\r\n",
        None,
        500,
    ),
    // A line of a head.
    (b"SSH-2.0-server\r\n", None, 0),
    (b"HTTP/2.0 200 OK\r\n", None, 0),
    (b"\r\n\r\nHTTP/1.1 20 OK\n", None, 0),
    (b"HTTP/1.1 200 OK\r\nA\r\n", None, 0),
    (b"HTTP/1.1 200 OK\r\nA: b\r\n c\r\n", None, 0),
    (b"HTTP/1.1 200 OK\nA: b\nB: c\nC : d\n", None, 0),
    (b"HTTP/1.1 200 OK\r\nA: \x00\r\n", None, 0),
    // The fields of a head.
    (b"HTTP/1.1 200 OK\r\nContent-Length: +1\r\n\r\n", None, 0),
    (
        b"HTTP/1.1 200 OK\r\nContent-Length: 1\r\nContent-Length: 1\r\n\r\n",
        None,
        0,
    ),
    // A chunk line, the end of a chunk, and a line of a trailer section.
    (
        b"HTTP/1.1 200 OK\r\nTransfer-Encoding: chunked\r\n\r\n-1\r\n",
        None,
        0,
    ),
    (
        b"HTTP/1.1 200 OK\r\nTransfer-Encoding: chunked\r\n\r\n1;a\n",
        None,
        0,
    ),
    (
        b"HTTP/1.1 200 OK\r\nTransfer-Encoding: chunked\r\n\r\n00000000000000001\r\n",
        None,
        0,
    ),
    (
        b"HTTP/1.1 200 OK\r\nTransfer-Encoding: chunked\r\n\r\n1\r\n34",
        None,
        0,
    ),
    (
        b"HTTP/1.1 200 OK\r\nTransfer-Encoding: chunked\r\n\r\n1\r\n3\r\r",
        None,
        0,
    ),
    (
        b"HTTP/1.1 200 OK\r\nTransfer-Encoding: chunked\r\n\r\n1\r\n3\r\n\r\n",
        None,
        0,
    ),
    (
        b"HTTP/1.1 200 OK\r\nTransfer-Encoding: chunked\r\n\r\n0\r\nX\r\n",
        None,
        0,
    ),
    (
        b"HTTP/1.1 200 OK\r\nTransfer-Encoding: chunked\r\n\r\n0\r\nX: y\r\nZ \r\n",
        None,
        0,
    ),
];

/// Streams with a text.
pub(super) const FOUND: [(&[u8], &[u8]); 13] = [
    (STATED, b"3"),
    (CHUNKED, b"3"),
    (WITH_TRAILER, b"3"),
    (b"HTTP/1.1 200 OK\r\n\r\n3", b"3"),
    (b"HTTP/1.1 200 OK\r\n\r\n", b""),
    (b"HTTP/1.0 200\r\n\r\n3", b"3"),
    (b"\r\n\nHTTP/1.1 200 OK\n\n3", b"3"),
    (b"HTTP/1.1 200 OK\r\ncontent-length:\t01 \r\n\r\n3456", b"3"),
    (b"HTTP/1.1 200 OK\r\nContent-Length: 0\r\n\r\n", b""),
    (
        b"HTTP/1.1 200 \xff\r\nX: \xfe\xff\r\nContent-Length: 2\r\n\r\n\x00\xff",
        b"\x00\xff",
    ),
    (
        b"HTTP/1.1 200 OK\r\nTRANSFER-encoding: Chunked\r\n\r\n1\r\n3\r\n0\r\n\nmore",
        b"3",
    ),
    (
        b"HTTP/1.1 200 OK\r\nTransfer-Encoding: chunked\r\n\r\n1\r\n3\r\n00A \r\n0123456789\r\n0\r\n\r\n",
        b"30123456789",
    ),
    (
        b"HTTP/1.1 200 OK\r\nContent-Length: 1\r\n\r\n3HTTP/1.1 404 Not Found\r\n\r\n",
        b"3",
    ),
];

/// Streams without a text, with the status that they answer.
pub(super) const BROKEN: [(&[u8], u16); 37] = [
    (b"HTTP/1.1 404 Not Found\r\n\r\nnothing", 404),
    (b"HTTP/1.1 302 Found\r\nLocation: /b\r\n\r\n", 302),
    (
        b"HTTP/1.1 100 Continue\r\n\r\nHTTP/1.1 200 OK\r\n\r\n3",
        100,
    ),
    (
        b"HTTP/1.1 500 Oops\r\nContent-Length: 1\r\nContent-Length: 1\r\n\r\n3",
        500,
    ),
    (b"HTTP/1.1 000 OK\r\n\r\n3", 0),
    (b"HTTP/2.0 200 OK\r\n\r\n3", 0),
    (b"HTTP/1.2 200 OK\r\n\r\n3", 0),
    (b"HTTP/1.1 20 OK\r\n\r\n3", 0),
    (b"HTTP/1.1 2000 OK\r\n\r\n3", 0),
    (b"SSH-2.0-server\r\n", 0),
    (b"\x00\x00\x00\x00\x00\x00\x00\x00", 0),
    (b"HTTP/1.1 200 OK\r\nA: \x00\r\n\r\n3", 0),
    (b"HTTP/1.1 200 OK\r\n\x00: b\r\n\r\n3", 0),
    (b"HTTP/1.1 200 OK\r\nA\r\n\r\n3", 0),
    (b"HTTP/1.1 200 OK\r\nA: b\r\n c\r\n\r\n3", 0),
    (b"HTTP/1.1 200 OK\r\nA : b\r\n\r\n3", 0),
    (b"HTTP/1.1 200 OK\rA: b\r\n\r\n3", 0),
    (
        b"HTTP/1.1 200 OK\r\nContent-Length: 1\r\nContent-Length: 1\r\n\r\n3",
        0,
    ),
    (
        b"HTTP/1.1 200 OK\r\nContent-Length: 1\r\ncontent-length: 2\r\n\r\n34",
        0,
    ),
    (
        b"HTTP/1.1 200 OK\r\nContent-Length: 1\r\nTransfer-Encoding: chunked\r\n\r\n1\r\n3\r\n0\r\n\r\n",
        0,
    ),
    (b"HTTP/1.1 200 OK\r\nContent-Length: +1\r\n\r\n3", 0),
    (b"HTTP/1.1 200 OK\r\nContent-Length: 1, 1\r\n\r\n3", 0),
    (b"HTTP/1.1 200 OK\r\nContent-Length:\r\n\r\n3", 0),
    (
        b"HTTP/1.1 200 OK\r\nContent-Length: 0000000000000000001\r\n\r\n3",
        0,
    ),
    (b"HTTP/1.1 200 OK\r\nContent-Length: 2\r\n\r\n3", 0),
    (
        b"HTTP/1.1 200 OK\r\nTransfer-Encoding: gzip, chunked\r\n\r\n0\r\n\r\n",
        0,
    ),
    (
        b"HTTP/1.1 200 OK\r\nTransfer-Encoding: chunked\r\nTransfer-Encoding: chunked\r\n\r\n0\r\n\r\n",
        0,
    ),
    (
        b"HTTP/1.1 200 OK\r\nTransfer-Encoding: chunked\r\n\r\n1\n3\r\n0\r\n\r\n",
        0,
    ),
    (
        b"HTTP/1.1 200 OK\r\nTransfer-Encoding: chunked\r\n\r\n1\r\n34\r\n0\r\n\r\n",
        0,
    ),
    (
        b"HTTP/1.1 200 OK\r\nTransfer-Encoding: chunked\r\n\r\n1\r\n3\n0\r\n\r\n",
        0,
    ),
    (
        b"HTTP/1.1 200 OK\r\nTransfer-Encoding: chunked\r\n\r\n1\r\n30\r\n\r\n",
        0,
    ),
    (
        b"HTTP/1.1 200 OK\r\nTransfer-Encoding: chunked\r\n\r\n\r\n3\r\n0\r\n\r\n",
        0,
    ),
    (
        b"HTTP/1.1 200 OK\r\nTransfer-Encoding: chunked\r\n\r\n-1\r\n3\r\n0\r\n\r\n",
        0,
    ),
    (
        b"HTTP/1.1 200 OK\r\nTransfer-Encoding: chunked\r\n\r\n00000000000000000001\r\n3\r\n0\r\n\r\n",
        0,
    ),
    (
        b"HTTP/1.1 200 OK\r\nTransfer-Encoding: chunked\r\n\r\nFFFFFFFFFFFFFFFF\r\n3\r\n0\r\n\r\n",
        0,
    ),
    (
        b"HTTP/1.1 200 OK\r\nTransfer-Encoding: chunked\r\n\r\n1\r\n3\r\n0\r\nX\r\n\r\n",
        0,
    ),
    (
        b"HTTP/1.1 200 OK\r\nTransfer-Encoding: chunked\r\n\r\n1\r\n3\r\n0\r\n\x00: y\r\n\r\n",
        0,
    ),
];

/// A head, and bytes that are repeated so often behind it: bodies of more bytes than are found.
pub(super) const LONG_BODIES: [(&[u8], &[u8], usize); 4] = [
    (b"HTTP/1.1 200 OK\r\n\r\n", &[b'x'; 64], 50_000),
    (
        b"HTTP/1.1 200 OK\r\nContent-Length: 999999999999999999\r\n\r\n",
        &[b'x'; 64],
        20_000,
    ),
    (
        b"HTTP/1.1 200 OK\r\nTransfer-Encoding: chunked\r\n\r\nFFFFFFFFFFFFFFFF\r\n",
        &[b'x'; 64],
        20_000,
    ),
    (
        b"HTTP/1.1 200 OK\r\nTransfer-Encoding: chunked\r\n\r\n",
        b"20\r\nxxxxxxxxxxxxxxxxxxxxxxxxxxxxxxxx\r\n",
        35_000,
    ),
];

/// A start, bytes that are repeated so often, an end, and whether the text `3` is found.
pub(super) const LIMITS: [(&[u8], &[u8], usize, &[u8], bool); 12] = [
    // Fields of a head.
    (b"HTTP/1.1 200 OK\r\n", b"A: b\r\n", 64, b"\r\n3", true),
    (b"HTTP/1.1 200 OK\r\n", b"A: b\r\n", 65, b"\r\n3", false),
    // Bytes of a head, which empty lines before it count towards.
    (b"HTTP/1.1 200 OK\r\nA:", b"b", 65_513, b"\r\n\r\n3", true),
    (b"HTTP/1.1 200 OK\r\nA:", b"b", 65_514, b"\r\n\r\n3", false),
    (b"", b"\r\n", 32_758, b"\nHTTP/1.1 200 OK\r\n\r\n3", true),
    (b"", b"\r\n", 32_759, b"HTTP/1.1 200 OK\r\n\r\n3", false),
    // A head without an end.
    (b"HTTP/1.1 200 OK\r\n", b"A: b\r\n", 20_000, b"", false),
    // Bytes of a chunk line.
    (
        b"HTTP/1.1 200 OK\r\nTransfer-Encoding: chunked\r\n\r\n1;",
        b"a",
        65_532,
        b"\r\n3\r\n0\r\n\r\n",
        true,
    ),
    (
        b"HTTP/1.1 200 OK\r\nTransfer-Encoding: chunked\r\n\r\n1;",
        b"a",
        65_533,
        b"\r\n3\r\n0\r\n\r\n",
        false,
    ),
    // Bytes of a trailer section, which may have any number of fields.
    (
        b"HTTP/1.1 200 OK\r\nTransfer-Encoding: chunked\r\n\r\n1\r\n3\r\n0\r\n",
        b"A:\r\n",
        16_383,
        b"\r\n",
        true,
    ),
    (
        b"HTTP/1.1 200 OK\r\nTransfer-Encoding: chunked\r\n\r\n1\r\n3\r\n0\r\n",
        b"A:\r\n",
        16_384,
        b"\r\n",
        false,
    ),
    (
        b"HTTP/1.1 200 OK\r\nTransfer-Encoding: chunked\r\n\r\n1\r\n3\r\n0\r\n",
        b"A:\n",
        50_000,
        b"",
        false,
    ),
];
