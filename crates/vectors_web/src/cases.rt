//! Streams and what is asked in them, replies, queries and paths.

use jk_web::End;

/// What comes on a connection, and what is asked: a request a line, `close` behind one that closes,
/// or the status of a bad one.
pub static STREAMS: [(&[u8], &[u8]); 25] = [
    (b"GET /images HTTP/1.1\r\nHost: x\r\n\r\n", b"GET /images\n"),
    (
        b"GET /images HTTP/1.1\r\nHost: x\r\n\r\nGET /images HTTP/1.1\r\nHost: x\r\n\r\n",
        b"GET /images\nGET /images\n",
    ),
    (b"", b""),
    (b"GET /images HTTP/1.1\r\nHost: x\r\n", b""),
    (b"GET / HTTP/1.0\r\n\r\n", b"GET / close\n"),
    (
        b"GET / HTTP/1.1\r\nConnection: Close\r\n\r\n",
        b"GET / close\n",
    ),
    (
        b"GET / HTTP/1.1\r\nconnection:  close \t\r\n\r\n",
        b"GET / close\n",
    ),
    (
        b"GET / HTTP/1.1\r\nConnection: keep-alive, close\r\n\r\n",
        b"GET /\n",
    ),
    (b"GET / HTTP/1.1\r\nX-Connection: close\r\n\r\n", b"GET /\n"),
    (
        b"POST /images HTTP/1.1\r\nContent-Length: 0\r\n\r\n",
        b"POST /images\n",
    ),
    (
        b"POST /images HTTP/1.1\r\nContent-Length: 00\r\n\r\n",
        b"400\n",
    ),
    (
        b"POST /images HTTP/1.1\r\ncontent-LENGTH: 5\r\n\r\nhello",
        b"400\n",
    ),
    (
        b"POST /images HTTP/1.1\r\nTransfer-Encoding: chunked\r\n\r\n0\r\n\r\n",
        b"400\n",
    ),
    (
        b"GET / HTTP/1.1\r\nA: b\r\nTransfer-Encoding: identity\r\n\r\n",
        b"400\n",
    ),
    (b"GET / HTTP/1.1\nHost: x\n\n", b"GET /\n"),
    (b"\r\n\nGET / HTTP/1.1\r\n\r\n", b"GET /\n"),
    (b"HEAD /images HTTP/1.1\r\n\r\n", b"HEAD /images\n"),
    (
        b"GET /images/a/window?x=0&y=0&w=1&h=1 HTTP/1.1\r\n\r\n",
        b"GET /images/a/window?x=0&y=0&w=1&h=1\n",
    ),
    (b"GET /a%20b?c HTTP/1.1\r\n\r\n", b"GET /a%20b?c\n"),
    (b"GET / HTTP/2.0\r\n\r\n", b"400\n"),
    (b"GET / HTTP/1.1\r\nHost : x\r\n\r\n", b"400\n"),
    (b"\x00", b"400\n"),
    (b"GET / HTTP/1.1\r\n\r\n\x01", b"GET /\n400\n"),
    (b"GET / HTTP/1.1\r\n folded: x\r\n\r\n", b"400\n"),
    (b"GET /\xFF HTTP/1.1\r\n\r\n", b"400\n"),
];

/// The replies to bad requests.
pub static BAD: [(u16, &[u8]); 4] = [
    (
        400,
        b"HTTP/1.1 400 Bad Request\r\nContent-Type: text/plain\r\nContent-Length: 16\r\nConnection: close\r\n\r\n400 Bad Request\n",
    ),
    (
        431,
        b"HTTP/1.1 431 Request Header Fields Too Large\r\nContent-Type: text/plain\r\nContent-Length: 36\r\nConnection: close\r\n\r\n431 Request Header Fields Too Large\n",
    ),
    (
        405,
        b"HTTP/1.1 405 Method Not Allowed\r\nAllow: GET\r\nContent-Type: text/plain\r\nContent-Length: 23\r\nConnection: close\r\n\r\n405 Method Not Allowed\n",
    ),
    (
        500,
        b"HTTP/1.1 500 Internal Server Error\r\nContent-Type: text/plain\r\nContent-Length: 26\r\nConnection: close\r\n\r\n500 Internal Server Error\n",
    ),
];

/// Queries, and the reduction, left edge, upper edge, width and height that they ask for.
pub static QUERIES: [(&[u8], Option<(u32, u32, u32, u32, u32)>); 26] = [
    (b"x=0&y=0&w=3&h=4", Some((0, 0, 0, 3, 4))),
    (b"x=1&y=2&w=3&h=4&r=5", Some((5, 1, 2, 3, 4))),
    (b"r=5&h=4&w=3&y=2&x=1", Some((5, 1, 2, 3, 4))),
    (b"&&x=1&&y=2&w=3&h=4&", Some((0, 1, 2, 3, 4))),
    (b"%78=%31&y=2&w=3&h=4", Some((0, 1, 2, 3, 4))),
    (b"x=4294967295&y=0&w=1&h=1", Some((0, 4294967295, 0, 1, 1))),
    (b"x=0000000001&y=0&w=1&h=1", Some((0, 1, 0, 1, 1))),
    (b"x=4294967296&y=0&w=1&h=1", None),
    (b"x=00000000001&y=0&w=1&h=1", None),
    (b"x=&y=0&w=1&h=1", None),
    (b"x&y=0&w=1&h=1", None),
    (b"x=+1&y=0&w=1&h=1", None),
    (b"x=%2B1&y=0&w=1&h=1", None),
    (b"x=-1&y=0&w=1&h=1", None),
    (b"x=0x1&y=0&w=1&h=1", None),
    (b"x=1.0&y=0&w=1&h=1", None),
    (b"x=1=1&y=0&w=1&h=1", None),
    (b"x=1&x=1&y=0&w=1&h=1", None),
    (b"x=1&y=0&w=1&h=1&r=0&r=0", None),
    (b"x=1&y=0&w=1", None),
    (b"y=0&w=1&h=1&r=1", None),
    (b"x=1&y=0&w=1&h=1&z=1", None),
    (b"X=1&y=0&w=1&h=1", None),
    (b"x=1&y=0&w=1&h=1&=", None),
    (b"x=\xD9\xA1&y=0&w=1&h=1", None),
    (b"", None),
];

/// Ends of queries for a window of one sample, and how many layers they ask for: a number, or all of
/// them, which is no number; or for no window.
pub static LAYERS: [(&[u8], Option<Option<u32>>); 17] = [
    (b"", Some(None)),
    (b"&layers=1", Some(Some(1))),
    (b"&layers=0", Some(Some(0))),
    (b"&layers=4294967295", Some(Some(4294967295))),
    (b"&layers=0000000007", Some(Some(7))),
    (b"&%6Cayers=%37", Some(Some(7))),
    (b"&layers=4294967296", None),
    (b"&layers=00000000001", None),
    (b"&layers=", None),
    (b"&layers", None),
    (b"&layers=all", None),
    (b"&layers=-1", None),
    (b"&layers=1&layers=1", None),
    (b"&Layers=1", None),
    (b"&layer=1", None),
    (b"&layersr=1", None),
    (b"&l=1", None),
];

/// Paths, and what they name: `list`, a name behind `whole` or `window`, or `none`.
pub static PATHS: [(&[u8], &[u8]); 16] = [
    (b"/images", b"list"),
    (b"/images/a", b"whole a"),
    (b"/images/a-b_9", b"whole a-b_9"),
    (b"/images/a/window", b"window a"),
    (b"/images/window", b"whole window"),
    (b"/images/window/window", b"window window"),
    (b"/images/", b"whole "),
    (b"/images//window", b"window "),
    (b"/images/a/", b"none"),
    (b"/images/a/window/", b"none"),
    (b"/images/a/windows", b"none"),
    (b"/imagesa", b"none"),
    (b"/Images", b"none"),
    (b"/b", b"none"),
    (b"/", b"none"),
    (b"", b"none"),
];

/// What comes on a connection, what is written to it where a reply is the method and the target,
/// and why it has ended.
pub static SERVED: [(&[u8], &[u8], End); 7] = [
    (b"", b"", End::Closed),
    (
        b"GET /a HTTP/1.1\r\n\r\nPUT /b HTTP/1.1\r\n\r\n",
        b"GET /a\nPUT /b\n",
        End::Closed,
    ),
    (
        b"GET /a HTTP/1.1\r\n\r\nGET /b HTTP/1.1\r\n",
        b"GET /a\n",
        End::Closed,
    ),
    (
        b"GET /a HTTP/1.0\r\n\r\nGET /b HTTP/1.1\r\n\r\n",
        b"GET /a\n",
        End::Closed,
    ),
    (
        b"GET /a HTTP/1.1\r\n\r\nGET /b HTTP/1.1\r\nConnection: close\r\n\r\n\x00",
        b"GET /a\nGET /b\n",
        End::Closed,
    ),
    (
        b"GET /a HTTP/1.1\r\n\r\n\x00GET /b HTTP/1.1\r\n\r\n",
        b"GET /a\nHTTP/1.1 400 Bad Request\r\nContent-Type: text/plain\r\nContent-Length: 16\r\nConnection: close\r\n\r\n400 Bad Request\n",
        End::Bad,
    ),
    (
        b"GET /a HTTP/1.1\r\nTransfer-Encoding: chunked\r\n\r\n0\r\n\r\n",
        b"HTTP/1.1 400 Bad Request\r\nContent-Type: text/plain\r\nContent-Length: 16\r\nConnection: close\r\n\r\n400 Bad Request\n",
        End::Bad,
    ),
];

/// A request to a catalogue of the image `a`, whether its file can't be read, and the reply.
pub static ANSWERS: [(&[u8], bool, &[u8]); 21] = [
    (
        b"GET /images HTTP/1.1\r\nHost: x\r\n\r\n",
        false,
        b"HTTP/1.1 200 OK\r\nContent-Type: text/plain\r\nContent-Length: 12\r\n\r\na 1 1 1 8 0\n",
    ),
    (
        b"GET /images? HTTP/1.1\r\n\r\n",
        false,
        b"HTTP/1.1 200 OK\r\nContent-Type: text/plain\r\nContent-Length: 12\r\n\r\na 1 1 1 8 0\n",
    ),
    (
        b"GET /images HTTP/1.0\r\n\r\n",
        false,
        b"HTTP/1.1 200 OK\r\nContent-Type: text/plain\r\nContent-Length: 12\r\nConnection: close\r\n\r\na 1 1 1 8 0\n",
    ),
    (
        b"GET /images?= HTTP/1.1\r\n\r\n",
        false,
        b"HTTP/1.1 400 Bad Request\r\nContent-Type: text/plain\r\nContent-Length: 16\r\n\r\n400 Bad Request\n",
    ),
    (
        b"GET /images/a HTTP/1.1\r\n\r\n",
        false,
        b"HTTP/1.1 200 OK\r\nContent-Type: image/jp2\r\nContent-Length: 5\r\n\r\nwhole",
    ),
    (
        b"GET /images/a?x=1 HTTP/1.1\r\n\r\n",
        false,
        b"HTTP/1.1 400 Bad Request\r\nContent-Type: text/plain\r\nContent-Length: 16\r\n\r\n400 Bad Request\n",
    ),
    (
        b"GET /images/a/window?x=0&y=0&w=1&h=1 HTTP/1.1\r\n\r\n",
        false,
        b"HTTP/1.1 200 OK\r\nContent-Type: image/jp2\r\nContent-Length: 3\r\n\r\ncut",
    ),
    (
        b"GET /images/a/window?x=0&y=0&w=0&h=1 HTTP/1.1\r\n\r\n",
        false,
        b"HTTP/1.1 400 Bad Request\r\nContent-Type: text/plain\r\nContent-Length: 16\r\n\r\n400 Bad Request\n",
    ),
    (
        b"GET /images/a/window HTTP/1.1\r\n\r\n",
        false,
        b"HTTP/1.1 400 Bad Request\r\nContent-Type: text/plain\r\nContent-Length: 16\r\n\r\n400 Bad Request\n",
    ),
    (
        b"GET /images/a/window?x=0&y=0&w=1&h=1 HTTP/1.1\r\n\r\n",
        true,
        b"HTTP/1.1 500 Internal Server Error\r\nContent-Type: text/plain\r\nContent-Length: 26\r\n\r\n500 Internal Server Error\n",
    ),
    (
        b"GET /images/a/window?x=0&y=0&w=0&h=1 HTTP/1.1\r\n\r\n",
        true,
        b"HTTP/1.1 400 Bad Request\r\nContent-Type: text/plain\r\nContent-Length: 16\r\n\r\n400 Bad Request\n",
    ),
    (
        b"GET /images/a HTTP/1.1\r\n\r\n",
        true,
        b"HTTP/1.1 500 Internal Server Error\r\nContent-Type: text/plain\r\nContent-Length: 26\r\n\r\n500 Internal Server Error\n",
    ),
    (
        b"GET /images/b HTTP/1.1\r\n\r\n",
        false,
        b"HTTP/1.1 404 Not Found\r\nContent-Type: text/plain\r\nContent-Length: 14\r\n\r\n404 Not Found\n",
    ),
    (
        b"GET /images/b?x=1 HTTP/1.1\r\n\r\n",
        false,
        b"HTTP/1.1 404 Not Found\r\nContent-Type: text/plain\r\nContent-Length: 14\r\n\r\n404 Not Found\n",
    ),
    (
        b"GET /images/b/window HTTP/1.1\r\n\r\n",
        true,
        b"HTTP/1.1 404 Not Found\r\nContent-Type: text/plain\r\nContent-Length: 14\r\n\r\n404 Not Found\n",
    ),
    (
        b"GET /images/ HTTP/1.1\r\n\r\n",
        false,
        b"HTTP/1.1 404 Not Found\r\nContent-Type: text/plain\r\nContent-Length: 14\r\n\r\n404 Not Found\n",
    ),
    (
        b"GET /images/a/ HTTP/1.1\r\n\r\n",
        false,
        b"HTTP/1.1 404 Not Found\r\nContent-Type: text/plain\r\nContent-Length: 14\r\n\r\n404 Not Found\n",
    ),
    (
        b"GET /b HTTP/1.1\r\n\r\n",
        false,
        b"HTTP/1.1 404 Not Found\r\nContent-Type: text/plain\r\nContent-Length: 14\r\n\r\n404 Not Found\n",
    ),
    (
        b"POST /images HTTP/1.1\r\n\r\n",
        false,
        b"HTTP/1.1 405 Method Not Allowed\r\nAllow: GET\r\nContent-Type: text/plain\r\nContent-Length: 23\r\n\r\n405 Method Not Allowed\n",
    ),
    (
        b"HEAD /images HTTP/1.1\r\n\r\n",
        false,
        b"HTTP/1.1 405 Method Not Allowed\r\nAllow: GET\r\nContent-Type: text/plain\r\nContent-Length: 23\r\n\r\n405 Method Not Allowed\n",
    ),
    (
        b"DELETE /b HTTP/1.1\r\nConnection: close\r\n\r\n",
        false,
        b"HTTP/1.1 405 Method Not Allowed\r\nAllow: GET\r\nContent-Type: text/plain\r\nContent-Length: 23\r\nConnection: close\r\n\r\n405 Method Not Allowed\n",
    ),
];

/// How many windows have room in a cache, requests that are answered through it in turn, and how
/// many windows are made for them.
pub static CACHED: [(usize, &[u8], u64); 10] = [
    // A window that is asked for twice, and behind others, is made once.
    (
        16,
        b"GET /images/a/window?x=0&y=0&w=1&h=1 HTTP/1.1\r\n\r\n\
          GET /images/a/window?x=0&y=0&w=1&h=1 HTTP/1.1\r\n\r\n\
          GET /images/b/window?x=0&y=0&w=1&h=1 HTTP/1.1\r\n\r\n\
          GET /images/a/window?x=0&y=0&w=1&h=1 HTTP/1.1\r\n\r\n",
        2,
    ),
    // Each of name, reduction, left and upper edge, width, height and layers makes it another one.
    (
        16,
        b"GET /images/a/window?x=0&y=0&w=1&h=1 HTTP/1.1\r\n\r\n\
          GET /images/b/window?x=0&y=0&w=1&h=1 HTTP/1.1\r\n\r\n\
          GET /images/a/window?x=0&y=0&w=1&h=1&r=1 HTTP/1.1\r\n\r\n\
          GET /images/a/window?x=1&y=0&w=1&h=1 HTTP/1.1\r\n\r\n\
          GET /images/a/window?x=0&y=1&w=1&h=1 HTTP/1.1\r\n\r\n\
          GET /images/a/window?x=0&y=0&w=2&h=1 HTTP/1.1\r\n\r\n\
          GET /images/a/window?x=0&y=0&w=1&h=2 HTTP/1.1\r\n\r\n\
          GET /images/a/window?x=0&y=0&w=1&h=1&layers=1 HTTP/1.1\r\n\r\n\
          GET /images/a/window?x=0&y=0&w=1&h=1&layers=2 HTTP/1.1\r\n\r\n\
          GET /images/a/window?x=0&y=0&w=1&h=1 HTTP/1.1\r\n\r\n\
          GET /images/b/window?x=0&y=0&w=1&h=1 HTTP/1.1\r\n\r\n\
          GET /images/a/window?x=0&y=0&w=1&h=1&r=1 HTTP/1.1\r\n\r\n\
          GET /images/a/window?x=1&y=0&w=1&h=1 HTTP/1.1\r\n\r\n\
          GET /images/a/window?x=0&y=1&w=1&h=1 HTTP/1.1\r\n\r\n\
          GET /images/a/window?x=0&y=0&w=2&h=1 HTTP/1.1\r\n\r\n\
          GET /images/a/window?x=0&y=0&w=1&h=2 HTTP/1.1\r\n\r\n\
          GET /images/a/window?x=0&y=0&w=1&h=1&layers=1 HTTP/1.1\r\n\r\n\
          GET /images/a/window?x=0&y=0&w=1&h=1&layers=2 HTTP/1.1\r\n\r\n",
        9,
    ),
    // However it is spelled.
    (
        16,
        b"GET /images/a/window?x=0&y=0&w=1&h=1 HTTP/1.1\r\n\r\n\
          GET /images/a/window?r=0&h=1&w=1&y=00&x=%30 HTTP/1.1\r\n\r\n",
        1,
    ),
    // One has room, so the second takes the place of the first.
    (
        1,
        b"GET /images/a/window?x=0&y=0&w=1&h=1 HTTP/1.1\r\n\r\n\
          GET /images/b/window?x=0&y=0&w=1&h=1 HTTP/1.1\r\n\r\n\
          GET /images/a/window?x=0&y=0&w=1&h=1 HTTP/1.1\r\n\r\n",
        3,
    ),
    // Two have room: the one that was asked for last stays.
    (
        2,
        b"GET /images/a/window?x=0&y=0&w=1&h=1 HTTP/1.1\r\n\r\n\
          GET /images/b/window?x=0&y=0&w=1&h=1 HTTP/1.1\r\n\r\n\
          GET /images/a/window?x=0&y=0&w=1&h=1 HTTP/1.1\r\n\r\n\
          GET /images/a/window?x=0&y=0&w=1&h=1&r=1 HTTP/1.1\r\n\r\n\
          GET /images/a/window?x=0&y=0&w=1&h=1 HTTP/1.1\r\n\r\n\
          GET /images/b/window?x=0&y=0&w=1&h=1 HTTP/1.1\r\n\r\n",
        4,
    ),
    // One of 2^20 bytes is kept.
    (
        16,
        b"GET /images/a/window?x=0&y=0&w=1&h=1048576 HTTP/1.1\r\n\r\n\
          GET /images/a/window?x=0&y=0&w=1&h=1048576 HTTP/1.1\r\n\r\n",
        1,
    ),
    // A longer one isn't.
    (
        16,
        b"GET /images/a/window?x=0&y=0&w=1&h=1048577 HTTP/1.1\r\n\r\n\
          GET /images/a/window?x=0&y=0&w=1&h=1048577 HTTP/1.1\r\n\r\n",
        2,
    ),
    // A refusal isn't kept.
    (
        16,
        b"GET /images/a/window?x=0&y=0&w=0&h=1 HTTP/1.1\r\n\r\n\
          GET /images/a/window?x=0&y=0&w=0&h=1 HTTP/1.1\r\n\r\n",
        2,
    ),
    // The reply that closes is another one of the same window.
    (
        16,
        b"GET /images/a/window?x=0&y=0&w=1&h=1 HTTP/1.1\r\n\r\n\
          GET /images/a/window?x=0&y=0&w=1&h=1 HTTP/1.1\r\nConnection: close\r\n\r\n",
        1,
    ),
    // Lists and files go by the cache.
    (
        16,
        b"GET /images HTTP/1.1\r\n\r\n\
          GET /images/a HTTP/1.1\r\n\r\n\
          GET /images/a/window?x=0&y=0&w=1&h=1 HTTP/1.1\r\n\r\n\
          GET /images/a HTTP/1.1\r\n\r\n\
          GET /images/c/window HTTP/1.1\r\n\r\n\
          GET /images/a/window?x=0&y=0&w=1&h=1 HTTP/1.1\r\n\r\n\
          GET /images HTTP/1.1\r\n\r\n",
        1,
    ),
];
