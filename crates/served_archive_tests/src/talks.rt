//! What is asked and printed where a server answers.

use crate::be;
use crate::playing::{is_said, play};
use std::alloc::Global;

/// A command, by its words with lines between them; what the server replies, and what is asked and printed; and the exit status.
struct Talk {
    words: &'static str,
    replies: &'static str,
    asked: &'static str,
    printed: &'static str,
    code: u8,
}

const TALKS: [Talk; 14] = [
    Talk {
        words: "rha|find|--connect|127.0.0.1:1|10.0.0.0/8",
        replies: "S|100\n\
             R|0|192.0.2.1|64496|10.0.0.0/8|64496 {64500,64501} 64502|INCOMPLETE|192.0.2.9|0|100|AG|64500 192.0.2.8|8/c0/fbf00007\n\
             R|15|2001:db8::1|4294967295|10.0.0.0/8|-|EGP|2001:db8::1 fe80::1|||NAG||\n\
             E|2\n",
        asked: "watermark\nat 99.999999 prefix 10.0.0.0/8\n",
        printed: "R|0|192.0.2.1|64496|10.0.0.0/8|64496 {64500,64501} 64502|INCOMPLETE|192.0.2.9|0|100|AG|64500 192.0.2.8|8/c0/fbf00007\n\
             R|15|2001:db8::1|4294967295|10.0.0.0/8|-|EGP|2001:db8::1 fe80::1|||NAG||\n\
             E|2\n",
        code: 0,
    },
    // Past the last prefix inside, the rest of the peer's rows isn't asked for.
    Talk {
        words: "rha|find|--connect|127.0.0.1:1|10.0.0.0/8|--more|--until|7",
        replies: "S|8\n\
             R|0|192.0.2.1|64496|10.0.0.0/8|1|IGP|192.0.2.9|||NAG||\n\
             R|0|192.0.2.1|64496|11.0.0.0/8|1|IGP|192.0.2.9|||NAG||\n\
             M|0|192.0.2.1|64496|11.0.0.0/8\n\
             R|0|192.0.2.2|64496|10.1.0.0/16|2|IGP|192.0.2.9|||NAG||\n\
             E|1\n",
        asked: "watermark\nat 7 all\nat 7 all after 0 192.0.2.1 64496 ffff:ffff:ffff:ffff:ffff:ffff:ffff:ffff/128\n",
        printed: "R|0|192.0.2.1|64496|10.0.0.0/8|1|IGP|192.0.2.9|||NAG||\n\
             R|0|192.0.2.2|64496|10.1.0.0/16|2|IGP|192.0.2.9|||NAG||\n\
             E|2\n",
        code: 0,
    },
    Talk {
        words: "rha|find|--connect|127.0.0.1:1|10.0.0.0/8|--less",
        replies: "S|1\nE|0\n",
        asked: "watermark\nat 0.999999 cover 10.0.0.0\n",
        printed: "E|0\n",
        code: 0,
    },
    // Which places changed, in two replies; which routes held before; and the events of each place, in two replies for the first.
    Talk {
        words: "rha|find|--connect|127.0.0.1:1|10.0.0.0/8|--since|10|--until|20",
        replies: "S|100\n\
             C|0|192.0.2.1|1|10.0.0.0/8\n\
             M|0|192.0.2.1|1|10.0.0.0/8\n\
             C|0|192.0.2.2|2|10.0.0.0/8\n\
             E|1\n\
             R|0|192.0.2.2|2|10.0.0.0/8|2|IGP|192.0.2.2|||NAG||\n\
             R|0|192.0.2.3|3|10.0.0.0/8|3|IGP|192.0.2.3|||NAG||\n\
             E|2\n\
             A|11|1 7|IGP|192.0.2.1|||NAG||\n\
             M|1\n\
             D|13\n\
             E|1\n\
             W|12\n\
             E|1\n\
             D|14\n\
             E|1\n",
        asked: "watermark\n\
             changed 10 20 10.0.0.0/8 10.0.0.0/8\n\
             changed 10 20 10.0.0.0/8 10.0.0.0/8 after 0 192.0.2.1 1 10.0.0.0/8\n\
             at 9.999999 prefix 10.0.0.0/8\n\
             history 10 20 0 192.0.2.1 1 10.0.0.0/8 skip 0\n\
             history 10 20 0 192.0.2.1 1 10.0.0.0/8 skip 1\n\
             history 10 20 0 192.0.2.2 2 10.0.0.0/8 skip 0\n\
             history 10 20 0 192.0.2.3 3 10.0.0.0/8 skip 0\n",
        printed: "A|11|0|192.0.2.1|1|10.0.0.0/8|1 7|IGP|192.0.2.1|||NAG||\n\
             W|12|0|192.0.2.2|2|10.0.0.0/8\n\
             D|13|0|192.0.2.1|1|10.0.0.0/8\n\
             D|14|0|192.0.2.3|3|10.0.0.0/8\n\
             E|4\n",
        code: 0,
    },
    // Of what is inside a prefix only the routes of peers whose session ended are read. The end is found at their places that didn't change.
    Talk {
        words: "rha|find|--connect|127.0.0.1:1|10.0.0.0/8|--more|--since|10|--until|20",
        replies: "S|100\n\
             C|0|192.0.2.1|1|10.1.0.0/16\n\
             E|1\n\
             R|0|192.0.2.1|1|10.1.0.0/16|1|IGP|192.0.2.1|||NAG||\n\
             R|0|192.0.2.2|2|9.0.0.0/8|2|IGP|192.0.2.2|||NAG||\n\
             E|2\n\
             W|12\n\
             E|1\n\
             D|13\n\
             E|1\n\
             E|0\n\
             R|0|192.0.2.2|2|10.2.0.0/16|2|IGP|192.0.2.2|||NAG||\n\
             E|1\n\
             W|12\n\
             E|1\n\
             D|13\n\
             E|1\n",
        asked: "watermark\n\
             changed 10 20 10.0.0.0/8 10.255.255.255/32\n\
             at 9.999999 all\n\
             history 10 20 0 192.0.2.1 1 10.1.0.0/16 skip 0\n\
             history 10 20 0 192.0.2.2 2 9.0.0.0/8 skip 0\n\
             at 9.999999 all after 0 192.0.2.2 2 ffff:ffff:ffff:ffff:ffff:ffff:ffff:ffff/128\n\
             at 9.999999 peer 0 192.0.2.2 2\n\
             history 10 20 0 192.0.2.1 1 10.1.0.0/16 skip 0\n\
             history 10 20 0 192.0.2.2 2 10.2.0.0/16 skip 0\n",
        printed: "W|12|0|192.0.2.1|1|10.1.0.0/16\n\
             D|13|0|192.0.2.2|2|10.2.0.0/16\n\
             E|2\n",
        code: 0,
    },
    Talk {
        words: "rha|find|--connect|127.0.0.1:1|2001:db8::/32|--more|--since|0|--until|0",
        replies: "S|1\nE|0\n",
        asked: "watermark\nchanged 0 0 2001:db8::/32 2001:db8:ffff:ffff:ffff:ffff:ffff:ffff/128\n",
        printed: "E|0\n",
        code: 0,
    },
    Talk {
        words: "rha|dump|--connect|127.0.0.1:1|--at|1970-01-01T00:00:05Z",
        replies: "S|6\nR|0|192.0.2.1|1|::/0|1|IGP|::1|||NAG||\nE|1\n",
        asked: "watermark\nat 5 all\n",
        printed: "R|0|192.0.2.1|1|::/0|1|IGP|::1|||NAG||\nE|1\n",
        code: 0,
    },
    Talk {
        words: "rha|dump|--connect|127.0.0.1:1|--format|bgpdump|--peer|0|::1|65001",
        replies: "S|6\nR|0|::1|65001|10.0.0.0/8|1 2|IGP|192.0.2.9|5||AG||8/c0/fbf00007\nE|1\n",
        asked: "watermark\nat 5.999999 peer 0 ::1 65001\n",
        printed: "TABLE_DUMP2|5|B|::1|65001|10.0.0.0/8|1 2|IGP|192.0.2.9|0|5|64496:7|AG||\n",
        code: 0,
    },
    Talk {
        words: "rha|peers|--connect|127.0.0.1:1",
        replies: "S|4294967296\n\
             R|0|192.0.2.1|1|10.0.0.0/8|1|IGP|192.0.2.1|||NAG||\n\
             R|0|192.0.2.1|1|10.0.0.0/9|1|IGP|192.0.2.1|||NAG||\n\
             R|1|192.0.2.1|1|10.0.0.0/8|1|IGP|192.0.2.1|||NAG||\n\
             E|3\n",
        asked: "watermark\nat 4294967295.999999 all\n",
        printed: "P|0|192.0.2.1|1|2\nP|1|192.0.2.1|1|1\nE|2\n",
        code: 0,
    },
    // Two tables an hour and a second apart are read side by side.
    Talk {
        words: "rha|diff|--connect|127.0.0.1:1|5|3606",
        replies: "S|3607\n\
             R|0|192.0.2.1|1|10.0.0.0/8|1|IGP|192.0.2.1|||NAG||\n\
             R|0|192.0.2.1|1|11.0.0.0/8|1|IGP|192.0.2.1|||NAG||\n\
             E|2\n\
             R|0|192.0.2.1|1|10.0.0.0/8|1 2|IGP|192.0.2.1|||NAG||\n\
             R|0|192.0.2.1|1|11.0.0.0/8|1|IGP|192.0.2.1|||NAG||\n\
             R|0|192.0.2.2|1|11.0.0.0/8|1|IGP|192.0.2.1|||NAG||\n\
             E|3\n",
        asked: "watermark\nat 5 all\nat 3606 all\n",
        printed: "~|0|192.0.2.1|1|10.0.0.0/8|1|IGP|192.0.2.1|||NAG|||1 2|IGP|192.0.2.1|||NAG||\n\
             +|0|192.0.2.2|1|11.0.0.0/8|1|IGP|192.0.2.1|||NAG||\n\
             E|2\n",
        code: 1,
    },
    // Within an hour: which places changed, whose sessions ended, what these peers had; and then the routes of each place.
    Talk {
        words: "rha|diff|--connect|127.0.0.1:1|5|3605",
        replies: "S|3606\n\
             C|0|192.0.2.1|1|10.0.0.0/8\n\
             C|0|192.0.2.2|1|11.0.0.0/8\n\
             E|2\n\
             R|0|192.0.2.1|1|10.0.0.0/8|1|IGP|192.0.2.1|||NAG||\n\
             R|0|192.0.2.1|1|11.0.0.0/8|1|IGP|192.0.2.1|||NAG||\n\
             R|0|192.0.2.3|1|12.0.0.0/8|3|IGP|192.0.2.3|||NAG||\n\
             E|3\n\
             A|7|1 2|IGP|192.0.2.1|||NAG||\n\
             E|1\n\
             D|8\n\
             E|1\n\
             E|0\n\
             R|0|192.0.2.3|1|12.0.0.0/8|3|IGP|192.0.2.3|||NAG||\n\
             E|1\n\
             R|0|192.0.2.1|1|10.0.0.0/8|1|IGP|192.0.2.1|||NAG||\n\
             E|1\n\
             R|0|192.0.2.1|1|10.0.0.0/8|1 2|IGP|192.0.2.1|||NAG||\n\
             E|1\n\
             E|0\n\
             R|0|192.0.2.2|1|11.0.0.0/8|1|IGP|192.0.2.1|||NAG||\n\
             E|1\n\
             R|0|192.0.2.3|1|12.0.0.0/8|3|IGP|192.0.2.3|||NAG||\n\
             E|1\n\
             E|0\n",
        asked: "watermark\n\
             changed 5.000001 3605 0.0.0.0/0 ffff:ffff:ffff:ffff:ffff:ffff:ffff:ffff/128\n\
             at 5 all\n\
             history 5.000001 3605 0 192.0.2.1 1 10.0.0.0/8 skip 0\n\
             history 5.000001 3605 0 192.0.2.3 1 12.0.0.0/8 skip 0\n\
             at 5 all after 0 192.0.2.3 1 ffff:ffff:ffff:ffff:ffff:ffff:ffff:ffff/128\n\
             at 5 peer 0 192.0.2.3 1\n\
             at 5 route 0 192.0.2.1 1 10.0.0.0/8\n\
             at 3605 route 0 192.0.2.1 1 10.0.0.0/8\n\
             at 5 route 0 192.0.2.2 1 11.0.0.0/8\n\
             at 3605 route 0 192.0.2.2 1 11.0.0.0/8\n\
             at 5 route 0 192.0.2.3 1 12.0.0.0/8\n\
             at 3605 route 0 192.0.2.3 1 12.0.0.0/8\n",
        printed: "~|0|192.0.2.1|1|10.0.0.0/8|1|IGP|192.0.2.1|||NAG|||1 2|IGP|192.0.2.1|||NAG||\n\
             +|0|192.0.2.2|1|11.0.0.0/8|1|IGP|192.0.2.1|||NAG||\n\
             -|0|192.0.2.3|1|12.0.0.0/8|3|IGP|192.0.2.3|||NAG||\n\
             E|3\n",
        code: 1,
    },
    Talk {
        words: "rha|diff|--connect|127.0.0.1:1|5|9|--within|10.0.0.0/8",
        replies: "S|10\nE|0\nE|0\n",
        asked: "watermark\nchanged 5.000001 9 10.0.0.0/8 10.255.255.255/32\nat 5 all\n",
        printed: "E|0\n",
        code: 0,
    },
    // A refusal comes after what was printed before it, and the next question is another connection's.
    Talk {
        words: "rha|diff|--connect|127.0.0.1:1|5|3606",
        replies: "S|9\nE|0\nX|24|AboveWatermark|9\n",
        asked: "watermark\nat 5 all\nat 3606 all\n",
        printed: "X|24|AboveWatermark|9\n",
        code: 2,
    },
    Talk {
        words: "rha|diff|--connect|127.0.0.1:1|5|9",
        replies: "S|9\nX|24|AboveWatermark|9\n",
        asked: "watermark\nchanged 5.000001 9 0.0.0.0/0 ffff:ffff:ffff:ffff:ffff:ffff:ffff:ffff/128\n",
        printed: "X|24|AboveWatermark|9\n",
        code: 2,
    },
];

/// Whether a command asks and prints this.
fn is_so(alloc: Global, talk: &Talk) -> Option<bool> {
    let played = play(alloc, talk.words, talk.replies.as_bytes(), 4096, true)?;
    Some(
        played.sent.as_slice() == talk.asked.as_bytes()
            && played.printed.as_slice() == talk.printed.as_bytes()
            && played.code == Some(talk.code)
            && is_said(alloc, played.lapse, "")?,
    )
}

#[test]
fn replies_are_printed_as_those_of_a_folder(rt: HostRuntime) {
    for talk in &TALKS {
        be(&rt, is_so(rt.alloc(), talk) == Some(true), talk.words);
    }
}
