//! What connections send to the archive of made.rt, and what they receive.

/// A connection: what it sends, how many answers it receives, how each of these begins, and texts that stand in them.
#[derive(Drop)]
pub(crate) struct Conversation {
    pub(crate) sent: &'static [u8],
    pub(crate) answers: usize,
    pub(crate) each: &'static str,
    pub(crate) parts: [&'static str; 3],
}

/// Connections to one archive, one after another, each of which ends as its client or a request asks.
pub(crate) const CONVERSATIONS: [Conversation; 36] = [
    Conversation {
        sent: b"GET /api/info HTTP/1.1\r\nHost: x\r\n\r\n",
        answers: 1,
        each: "HTTP/1.1 ",
        parts: [
            "HTTP/1.1 200 OK\r\nContent-Type: application/json\r\nContent-Length: 244\r\nCache-Control: no-store\r\nX-Content-Type-Options: nosniff\r\n\r\n{\"settled\":1704067202,\"date\":\"2024-01-01T00:00:02Z\",\"changes\":260,\"last\":1704067201,\"pages\":{\"used\":22,\"of\":81},\"blocks\":{\"used\":0,\"of\":64},\"collectors\":[{\"collector\":0,\"mark\":1704067202,\"offered\":4,\"admitted\":4,\"ring\":{\"used\":0,\"of\":262144}}]}",
            "",
            "",
        ],
    },
    Conversation {
        sent: b"HEAD /api/info HTTP/1.1\r\nConnection: keep-alive, Close\r\n\r\nGET /api/info HTTP/1.1\r\nHost: x\r\n\r\n",
        answers: 1,
        each: "HTTP/1.1 ",
        parts: [
            "HTTP/1.1 200 OK\r\nContent-Type: application/json\r\nContent-Length: 244\r\nCache-Control: no-store\r\nX-Content-Type-Options: nosniff\r\nConnection: close\r\n\r\n",
            "",
            "",
        ],
    },
    Conversation {
        sent: b"\r\nHEAD /api/info HTTP/1.1\r\n\r\nGET /api/info HTTP/1.1\r\nHost: x\r\n\r\n",
        answers: 2,
        each: "HTTP/1.1 ",
        parts: [
            "HTTP/1.1 200 OK\r\nContent-Type: application/json\r\nContent-Length: 244\r\nCache-Control: no-store\r\nX-Content-Type-Options: nosniff\r\n\r\nHTTP/1.1 200 OK\r\nContent-Type: application/json\r\nContent-Length: 244\r\nCache-Control: no-store\r\nX-Content-Type-Options: nosniff\r\n\r\n{\"settled\":1704067202,\"date\":\"2024-01-01T00:00:02Z\",\"changes\":260,\"last\":1704067201,\"pages\":{\"used\":22,\"of\":81},\"blocks\":{\"used\":0,\"of\":64},\"collectors\":[{\"collector\":0,\"mark\":1704067202,\"offered\":4,\"admitted\":4,\"ring\":{\"used\":0,\"of\":262144}}]}",
            "",
            "",
        ],
    },
    Conversation {
        sent: b"GET /api/route?at=1704067200&collector=0&peer=192.0.2.1&as=65001&prefix=10.0.0.0/8 HTTP/1.1\r\nHost: x\r\n\r\nGET /metrics HTTP/1.1\r\nHost: x\r\n\r\n",
        answers: 2,
        each: "HTTP/1.1 ",
        parts: [
            "HTTP/1.1 200 OK\r\nContent-Type: application/json\r\nContent-Length: 353\r\nCache-Control: no-store\r\nX-Content-Type-Options: nosniff\r\n\r\n{\"rows\":[{\"time\":1704067200,\"date\":\"2024-01-01T00:00:00Z\",\"collector\":0,\"peer\":\"192.0.2.1\",\"as_number\":65001,\"prefix\":\"10.0.0.0/8\",\"path\":\"65001 65002\",\"origin\":\"IGP\",\"next_hop\":\"192.0.2.1\",\"med\":null,\"local_pref\":null,\"atomic_aggregate\":false,\"aggregator\":\"\",\"communities\":[],\"extended_communities\":[],\"large_communities\":[],\"others\":\"\"}],\"more\":false}",
            "HTTP/1.1 200 OK\r\nContent-Type: text/plain; version=0.0.4; charset=utf-8\r\nContent-Length: 2451\r\nCache-Control: no-store\r\nX-Content-Type-Options: nosniff\r\n\r\n# HELP rha_settled_seconds The settled watermark, in seconds since 1970.\n# TYPE rha_settled_seconds gauge\nrha_settled_seconds 1704067202\n# HELP rha_applied_changes_total Changes that are applied.\n# TYPE rha_applied_changes_total counter\nrha_applied_changes_total 260\n# HELP rha_last_change_seconds The time of the last change that is applied, in seconds since 1970.\n# TYPE rha_last_change_seconds gauge\nrha_last_change_seconds 1704067201\n# HELP rha_pages_used Home pages that were ever used.\n# TYPE rha_pages_used gauge\nrha_pages_used 22\n# HELP rha_pages Home pages.\n# TYPE rha_pages gauge\nrha_pages 81\n# HELP rha_blocks_used Blocks of the write-once disk that were ever tried.\n# TYPE rha_blocks_used gauge\nrha_blocks_used 0\n# HELP rha_blocks Blocks of the write-once disk.\n# TYPE rha_blocks gauge\nrha_blocks 64\n# HELP rha_admitted_records_total Records of a collector that are admitted.\n# TYPE rha_admitted_records_total counter\nrha_admitted_records_total{collector=\"0\"} 4\n# HELP rha_offered_records_total Records of a collector that were offered, late ones too.\n# TYPE rha_offered_records_total counter\nrha_offered_records_total{collector=\"0\"} 4\n# HELP rha_mark_seconds The mark of a collector, in seconds since 1970.\n# TYPE rha_mark_seconds gauge\nrha_mark_seconds{collector=\"0\"} 1704067202\n# HELP rha_ring_used_bytes What pending admissions use of a collector's ring.\n# TYPE rha_ring_used_bytes gauge\nrha_ring_used_bytes{collector=\"0\"} 0\n# HELP rha_ring_bytes The size of a collector's ring.\n# TYPE rha_ring_bytes gauge\nrha_ring_bytes{collector=\"0\"} 262144\n# HELP rha_questions_total Questions that were answered or refused since the server began.\n# TYPE rha_questions_total counter\nrha_questions_total{kind=\"route\"} 1\nrha_questions_total{kind=\"prefix\"} 0\nrha_questions_total{kind=\"cover\"} 0\nrha_questions_total{kind=\"peer\"} 0\nrha_questions_total{kind=\"all\"} 0\nrha_questions_total{kind=\"history\"} 0\nrha_questions_total{kind=\"changed\"} 0\n# HELP rha_question_seconds_total Seconds from the reading of these questions to their replies.\n# TYPE rha_question_seconds_total counter\nrha_question_seconds_total{kind=\"route\"} 0.",
            "\nrha_question_seconds_total{kind=\"prefix\"} 0.000000000\nrha_question_seconds_total{kind=\"cover\"} 0.000000000\nrha_question_seconds_total{kind=\"peer\"} 0.000000000\nrha_question_seconds_total{kind=\"all\"} 0.000000000\nrha_question_seconds_total{kind=\"history\"} 0.000000000\nrha_question_seconds_total{kind=\"changed\"} 0.000000000\n",
        ],
    },
    Conversation {
        sent: b"GET /api/prefix?prefix=2001%3adb8::%2f32&at=2024-01-01T00:00:00Z HTTP/1.1\r\nHost: x\r\n\r\n",
        answers: 1,
        each: "HTTP/1.1 ",
        parts: [
            "\"prefix\":\"2001:db8::/32\",\"path\":\"65001 65002\",\"origin\":\"IGP\",\"next_hop\":\"2001:db8::1\",\"med\":100,\"local_pref\":null,\"atomic_aggregate\":false,\"aggregator\":\"\",",
            "\"communities\":[\"65000:1\"],\"extended_communities\":[\"rt:65000:1\"],\"large_communities\":[\"65000:1:2\"],",
            "\"others\":\"8/c0/fde80001 16/c0/0002fde800000001 32/c0/0000fde80000000100000002\"}],\"more\":false}",
        ],
    },
    Conversation {
        sent: b"GET /api/prefix?prefix=10.0.0.0/8&at=1704067200&after_collector=0&after_peer=192.0.2.1&after_as=65001&after_prefix=10.0.0.0%2F8 HTTP/1.1\r\nHost: x\r\n\r\n",
        answers: 1,
        each: "HTTP/1.1 ",
        parts: ["{\"rows\":[],\"more\":false}", "", ""],
    },
    Conversation {
        sent: b"GET /api/cover?at=2024-01-01T01:00:00%2b01:00&address=10.1.2.3 HTTP/1.1\r\nHost: x\r\n\r\n",
        answers: 1,
        each: "HTTP/1.1 ",
        parts: ["\"prefix\":\"10.0.0.0/8\"", "],\"more\":false}", ""],
    },
    Conversation {
        sent: b"GET /api/cover?at=1704067201&address=10.1.2.3 HTTP/1.1\r\nHost: x\r\n\r\n",
        answers: 1,
        each: "HTTP/1.1 ",
        parts: ["\r\n\r\n{\"rows\":[],\"more\":false}", "", ""],
    },
    Conversation {
        sent: b"GET /api/peer?at=1704067200&collector=0&peer=192.0.2.1&as=65001 HTTP/1.1\r\nHost: x\r\n\r\n",
        answers: 1,
        each: "HTTP/1.1 ",
        parts: [
            "\"prefix\":\"11.0.254.0/24\"",
            "\"more\":true,\"next\":\"/api/peer?at=1704067200&collector=0&peer=192.0.2.1&as=65001&after_collector=0&after_peer=192.0.2.1&after_as=65001&after_prefix=11.0.254.0/24\"}",
            "",
        ],
    },
    Conversation {
        sent: b"GET /api/peers?at=1704067200 HTTP/1.1\r\nHost: x\r\n\r\n",
        answers: 1,
        each: "HTTP/1.1 ",
        parts: [
            "{\"peers\":[{\"collector\":0,\"peer\":\"192.0.2.1\",\"as_number\":65001}],\"more\":true,\"next\":\"/api/peers?at=1704067200&after_collector=0&after_peer=192.0.2.1&after_as=65001\"}",
            "",
            "",
        ],
    },
    Conversation {
        sent: b"GET /api/peers?at=1704067200&after_collector=0&after_peer=192.0.2.1&after_as=65001 HTTP/1.1\r\nHost: x\r\n\r\n",
        answers: 1,
        each: "HTTP/1.1 ",
        parts: ["{\"peers\":[],\"more\":false}", "", ""],
    },
    Conversation {
        sent: b"GET / HTTP/1.1\r\nHost: x\r\n\r\n",
        answers: 1,
        each: "HTTP/1.1 ",
        parts: [
            "HTTP/1.1 200 OK\r\nContent-Type: text/html; charset=utf-8\r\nContent-Length: ",
            "\r\nCache-Control: no-store\r\nX-Content-Type-Options: nosniff\r\nContent-Security-Policy: default-src 'none'; script-src 'sha256-",
            "; frame-ancestors 'none'\r\n\r\n<!doctype html>\n",
        ],
    },
    Conversation {
        sent: b"HEAD / HTTP/1.1\r\nHost: x\r\n\r\nGET /api/info HTTP/1.1\r\nHost: x\r\n\r\n",
        answers: 2,
        each: "HTTP/1.1 ",
        parts: [
            "; frame-ancestors 'none'\r\n\r\nHTTP/1.1 200 OK\r\nContent-Type: application/json\r\n",
            "",
            "",
        ],
    },
    Conversation {
        sent: b"GET /api/history?from=0&to=1704067201&collector=0&peer=192.0.2.1&as=65001&prefix=10.0.0.0/8 HTTP/1.1\r\nHost: x\r\n\r\n",
        answers: 1,
        each: "HTTP/1.1 ",
        parts: [
            "{\"events\":[{\"time\":1704067200,\"date\":\"2024-01-01T00:00:00Z\",\"event\":\"announce\",\"route\":{\"path\":\"65001 65002\",\"origin\":\"IGP\"",
            "\"others\":\"\"}},{\"time\":1704067201,\"date\":\"2024-01-01T00:00:01Z\",\"event\":\"withdraw\",\"route\":null}],\"more\":false}",
            "",
        ],
    },
    Conversation {
        sent: b"GET /api/history?from=0&to=1704067201&collector=0&peer=192.0.2.1&as=65001&prefix=10.0.0.0/8&skip=1 HTTP/1.1\r\nHost: x\r\n\r\n",
        answers: 1,
        each: "HTTP/1.1 ",
        parts: [
            "{\"events\":[{\"time\":1704067201,\"date\":\"2024-01-01T00:00:01Z\",\"event\":\"withdraw\",\"route\":null}],\"more\":false}",
            "",
            "",
        ],
    },
    Conversation {
        sent: b"GET /api/prefix?at=1704067202&prefix=10.0.0.0/8 HTTP/1.1\r\nHost: x\r\n\r\nGET /api/info HTTP/1.1\r\nHost: x\r\n\r\n",
        answers: 2,
        each: "HTTP/1.1 ",
        parts: [
            "HTTP/1.1 409 Conflict\r\nContent-Type: application/json\r\nContent-Length: 93\r\nCache-Control: no-store\r\nX-Content-Type-Options: nosniff\r\n\r\n{\"error\":{\"number\":24,\"name\":\"AboveWatermark\",\"settled\":1704067202,\"message\":\"ask below it\"}}",
            "{\"settled\":1704067202,\"date\":\"2024-01-01T00:00:02Z\",\"changes\":260,\"last\":1704067201,\"pages\":{\"used\":22,\"of\":81},\"blocks\":{\"used\":0,\"of\":64},\"collectors\":[{\"collector\":0,\"mark\":1704067202,\"offered\":4,\"admitted\":4,\"ring\":{\"used\":0,\"of\":262144}}]}",
            "",
        ],
    },
    Conversation {
        sent: b"GET /api/find?from=2024-01-01T00:00:01Z&to=1704067201&prefix=0.0.0.0%2f0 HTTP/1.1\r\nHost: x\r\n\r\n",
        answers: 1,
        each: "HTTP/1.1 200 OK",
        parts: [
            "\r\n\r\n{\"places\":[{\"collector\":0,\"peer\":\"192.0.2.1\",\"as_number\":65001,\"prefix\":\"10.0.0.0/8\"}],\"more\":false}",
            "",
            "",
        ],
    },
    Conversation {
        sent: b"GET /api/find?prefix=2001:db8::/32&to=1704067200&from=0 HTTP/1.1\r\nHost: x\r\n\r\nGET /api/find?prefix=2001:db8::/32&to=1704067201&from=0&after_collector=0&after_peer=192.0.2.1&after_as=65001&after_prefix=2001:db8::/32 HTTP/1.1\r\nHost: x\r\n\r\nGET /api/find?prefix=2001:db8::/33&to=1704067201&from=0 HTTP/1.1\r\nHost: x\r\n\r\nGET /api/find?prefix=10.0.0.0/8&to=1704067202&from=0 HTTP/1.1\r\nHost: x\r\n\r\n",
        answers: 4,
        each: "HTTP/1.1 ",
        parts: [
            "\"prefix\":\"2001:db8::/32\"}],\"more\":false}HTTP/1.1 200 OK",
            "{\"places\":[],\"more\":false}HTTP/1.1 200 OK",
            "{\"places\":[],\"more\":false}HTTP/1.1 409 Conflict",
        ],
    },
    Conversation {
        sent: b"GET /api/find?from=0&to=1704067201&prefix=10.0.0.0/8 HTTP/1.1\r\nHost: x\r\n\r\nGET /api/find?from=0&to=1704067202&prefix=10.0.0.0/8 HTTP/1.1\r\nHost: x\r\n\r\nGET /api/find?from=0&to=1704067201&prefix=2001:db8::/32 HTTP/1.1\r\nHost: x\r\n\r\nGET /api/history?from=0&to=1704067201&collector=0&peer=192.0.2.1&as=65001&prefix=10.0.0.0/8 HTTP/1.1\r\nHost: x\r\n\r\nGET /api/peers?at=1704067200 HTTP/1.1\r\nHost: x\r\n\r\nGET /api/prefix?at=1704067202&prefix=10.0.0.0/8 HTTP/1.1\r\nHost: x\r\n\r\nGET /api/prefix?at=1704067201&prefix=10.0.0.0/8 HTTP/1.1\r\nHost: x\r\n\r\nGET /metrics HTTP/1.1\r\nHost: x\r\n\r\n",
        answers: 8,
        each: "HTTP/1.1 ",
        parts: [
            "\nrha_questions_total{kind=\"route\"} 0\nrha_questions_total{kind=\"prefix\"} 2\nrha_questions_total{kind=\"cover\"} 0\nrha_questions_total{kind=\"peer\"} 0\nrha_questions_total{kind=\"all\"} 1\nrha_questions_total{kind=\"history\"} 1\nrha_questions_total{kind=\"changed\"} 3\n",
            "",
            "",
        ],
    },
    Conversation {
        sent: b"GET /? HTTP/1.1\r\nHost: x\r\n\r\nGET /api/all?at=0 HTTP/1.1\r\nHost: x\r\n\r\nGET /api/prefix/?at=0&prefix=10.0.0.0/8 HTTP/1.1\r\nHost: x\r\n\r\nGET http://x/api/info HTTP/1.1\r\nHost: x\r\n\r\nGET /api/Info HTTP/1.1\r\nHost: x\r\n\r\n",
        answers: 5,
        each: "HTTP/1.1 404 Not Found\r\n",
        parts: [
            "HTTP/1.1 404 Not Found\r\nContent-Type: application/json\r\nContent-Length: 77\r\nCache-Control: no-store\r\nX-Content-Type-Options: nosniff\r\n\r\n{\"error\":{\"number\":28,\"name\":\"BadRequest\",\"message\":\"there is no such path\"}}",
            "",
            "",
        ],
    },
    Conversation {
        sent: b"GET /api/prefix HTTP/1.1\r\nHost: x\r\n\r\nGET /api/prefix? HTTP/1.1\r\nHost: x\r\n\r\nGET /api/prefix?at=0 HTTP/1.1\r\nHost: x\r\n\r\nGET /api/prefix?at=0&prefix=10.0.0.0/8&x=1 HTTP/1.1\r\nHost: x\r\n\r\nGET /api/prefix?at=0&prefix=10.0.0.0/8&at=0 HTTP/1.1\r\nHost: x\r\n\r\nGET /api/prefix?at=0&prefix=10.0.0.0/8& HTTP/1.1\r\nHost: x\r\n\r\nGET /api/prefix?at=0%20all&prefix=10.0.0.0/8 HTTP/1.1\r\nHost: x\r\n\r\nGET /api/prefix?at=0&prefix=10.0.0.0/8%20after%200%20192.0.2.1%2065001%2010.0.0.0/8 HTTP/1.1\r\nHost: x\r\n\r\nGET /api/prefix?at=0&prefix= HTTP/1.1\r\nHost: x\r\n\r\nGET /api/prefix?at=0&prefix=%ff HTTP/1.1\r\nHost: x\r\n\r\nGET /api/prefix?at=0&prefix=10.0.0.0%2 HTTP/1.1\r\nHost: x\r\n\r\nGET /api/prefix?at=0&prefix=10.0.0.0/33 HTTP/1.1\r\nHost: x\r\n\r\nGET /api/prefix?at=0&prefix=10.0.0.0/8%0a HTTP/1.1\r\nHost: x\r\n\r\nGET /api/prefix?at=0&prefix=10.0.0.0/8&after_collector=0 HTTP/1.1\r\nHost: x\r\n\r\nGET /api/route?at=0&collector=0&peer=192.0.2.1&as=65001&prefix=10.0.0.0/8&after_collector=0&after_peer=192.0.2.1&after_as=65001&after_prefix=10.0.0.0/8 HTTP/1.1\r\nHost: x\r\n\r\nGET /api/peer?at=0&collector=16&peer=192.0.2.1&as=65001 HTTP/1.1\r\nHost: x\r\n\r\nGET /api/cover?at=0&address=10.0.0.0/8 HTTP/1.1\r\nHost: x\r\n\r\nGET /api/history?from=0&to=1704067201&collector=0&peer=192.0.2.1&as=65001&prefix=10.0.0.0/8&skip=18446744073709551616 HTTP/1.1\r\nHost: x\r\n\r\nGET /api/find?from=0&to=1704067201 HTTP/1.1\r\nHost: x\r\n\r\nGET /api/find?from=0&to=1704067201&prefix=10.0.0.0 HTTP/1.1\r\nHost: x\r\n\r\nGET /api/find?from=0&to=x&prefix=10.0.0.0/8 HTTP/1.1\r\nHost: x\r\n\r\nGET /api/find?from=0&to=1704067201&prefix=10.0.0.0/8&high=10.0.0.0/8 HTTP/1.1\r\nHost: x\r\n\r\nGET /api/info?at=0 HTTP/1.1\r\nHost: x\r\n\r\nGET /metrics?x HTTP/1.1\r\nHost: x\r\n\r\n",
        answers: 24,
        each: "HTTP/1.1 400 Bad Request\r\n",
        parts: [
            "HTTP/1.1 400 Bad Request\r\nContent-Type: application/json\r\nContent-Length: 119\r\nCache-Control: no-store\r\nX-Content-Type-Options: nosniff\r\n\r\n{\"error\":{\"number\":28,\"name\":\"BadRequest\",\"message\":\"a parameter is unknown, missing, given twice or not of its kind\"}}",
            "",
            "",
        ],
    },
    Conversation {
        sent: b"POST /api/info HTTP/1.1\r\nContent-Length: 27\r\n\r\nmark 0 4294967296\nstop\nquit\nGET /api/info HTTP/1.1\r\nHost: x\r\n\r\n",
        answers: 1,
        each: "HTTP/1.1 ",
        parts: [
            "HTTP/1.1 405 Method Not Allowed\r\nContent-Type: application/json\r\nContent-Length: 86\r\nCache-Control: no-store\r\nX-Content-Type-Options: nosniff\r\nAllow: GET, HEAD\r\nConnection: close\r\n\r\n{\"error\":{\"number\":28,\"name\":\"BadRequest\",\"message\":\"only GET and HEAD are answered\"}}",
            "",
            "",
        ],
    },
    Conversation {
        sent: b"GET /api/info HTTP/1.1\r\nHost: x\r\n\r\n",
        answers: 1,
        each: "HTTP/1.1 ",
        parts: [
            "{\"settled\":1704067202,\"date\":\"2024-01-01T00:00:02Z\",\"changes\":260,\"last\":1704067201,\"pages\":{\"used\":22,\"of\":81},\"blocks\":{\"used\":0,\"of\":64},\"collectors\":[{\"collector\":0,\"mark\":1704067202,\"offered\":4,\"admitted\":4,\"ring\":{\"used\":0,\"of\":262144}}]}",
            "",
            "",
        ],
    },
    Conversation {
        sent: b"DELETE / HTTP/1.1\r\n\r\nGET /api/info HTTP/1.1\r\nHost: x\r\n\r\n",
        answers: 1,
        each: "HTTP/1.1 ",
        parts: ["405 Method Not Allowed", "", ""],
    },
    Conversation {
        sent: b"GET /api/info HTTP/1.1\r\ncontent-length: 22\r\n\r\nGET /api/info HTTP/1.1\r\nHost: x\r\n\r\n",
        answers: 1,
        each: "HTTP/1.1 ",
        parts: [
            "HTTP/1.1 400 Bad Request\r\nContent-Type: application/json\r\nContent-Length: 82\r\nCache-Control: no-store\r\nX-Content-Type-Options: nosniff\r\nConnection: close\r\n\r\n{\"error\":{\"number\":28,\"name\":\"BadRequest\",\"message\":\"a request has no body here\"}}",
            "",
            "",
        ],
    },
    Conversation {
        sent: b"GET /api/info HTTP/1.1\r\nContent-Length: 00\r\n\r\nGET /api/info HTTP/1.1\r\nHost: x\r\n\r\n",
        answers: 1,
        each: "HTTP/1.1 ",
        parts: [
            "HTTP/1.1 400 Bad Request\r\nContent-Type: application/json\r\nContent-Length: 82\r\nCache-Control: no-store\r\nX-Content-Type-Options: nosniff\r\nConnection: close\r\n\r\n{\"error\":{\"number\":28,\"name\":\"BadRequest\",\"message\":\"a request has no body here\"}}",
            "",
            "",
        ],
    },
    Conversation {
        sent: b"GET /api/info HTTP/1.1\r\nTransfer-Encoding: chunked\r\n\r\nGET /api/info HTTP/1.1\r\nHost: x\r\n\r\n",
        answers: 1,
        each: "HTTP/1.1 ",
        parts: [
            "HTTP/1.1 400 Bad Request\r\nContent-Type: application/json\r\nContent-Length: 82\r\nCache-Control: no-store\r\nX-Content-Type-Options: nosniff\r\nConnection: close\r\n\r\n{\"error\":{\"number\":28,\"name\":\"BadRequest\",\"message\":\"a request has no body here\"}}",
            "",
            "",
        ],
    },
    Conversation {
        sent: b"GET /api/info HTTP/1.1\r\nContent-Length: 0\r\n\r\nGET /api/info HTTP/1.1\r\nHost: x\r\n\r\n",
        answers: 2,
        each: "HTTP/1.1 ",
        parts: [
            "{\"settled\":1704067202,\"date\":\"2024-01-01T00:00:02Z\",\"changes\":260,\"last\":1704067201,\"pages\":{\"used\":22,\"of\":81},\"blocks\":{\"used\":0,\"of\":64},\"collectors\":[{\"collector\":0,\"mark\":1704067202,\"offered\":4,\"admitted\":4,\"ring\":{\"used\":0,\"of\":262144}}]}",
            "",
            "",
        ],
    },
    Conversation {
        sent: b"GET /api/info HTTP/1.0\r\n\r\nGET /api/info HTTP/1.1\r\nHost: x\r\n\r\n",
        answers: 1,
        each: "HTTP/1.1 ",
        parts: [
            "Connection: close\r\n\r\n{\"settled\":1704067202,\"date\":\"2024-01-01T00:00:02Z\",\"changes\":260,\"last\":1704067201,\"pages\":{\"used\":22,\"of\":81},\"blocks\":{\"used\":0,\"of\":64},\"collectors\":[{\"collector\":0,\"mark\":1704067202,\"offered\":4,\"admitted\":4,\"ring\":{\"used\":0,\"of\":262144}}]}",
            "",
            "",
        ],
    },
    Conversation {
        sent: b"GET /api/info HTTP/1.1\r\nHost: x\r\n\r\nwatermark\nmark 0 4294967296\nGET /api/info HTTP/1.1\r\nHost: x\r\n\r\n",
        answers: 2,
        each: "HTTP/1.1 ",
        parts: [
            "{\"settled\":1704067202,\"date\":\"2024-01-01T00:00:02Z\",\"changes\":260,\"last\":1704067201,\"pages\":{\"used\":22,\"of\":81},\"blocks\":{\"used\":0,\"of\":64},\"collectors\":[{\"collector\":0,\"mark\":1704067202,\"offered\":4,\"admitted\":4,\"ring\":{\"used\":0,\"of\":262144}}]}HTTP/1.1 400 Bad Request\r\nContent-Type: application/json\r\nContent-Length: 86\r\nCache-Control: no-store\r\nX-Content-Type-Options: nosniff\r\nConnection: close\r\n\r\n{\"error\":{\"number\":28,\"name\":\"BadRequest\",\"message\":\"this is no request of HTTP/1.x\"}}",
            "",
            "",
        ],
    },
    Conversation {
        sent: b"GET /api/info HTTP/2.0\r\n\r\n",
        answers: 1,
        each: "HTTP/1.1 ",
        parts: ["400 Bad Request", "", ""],
    },
    Conversation {
        sent: b"GET /api/info HTTP/1.1\r\na:\r\na:\r\na:\r\na:\r\na:\r\na:\r\na:\r\na:\r\na:\r\na:\r\na:\r\na:\r\na:\r\na:\r\na:\r\na:\r\na:\r\na:\r\na:\r\na:\r\na:\r\na:\r\na:\r\na:\r\na:\r\na:\r\na:\r\na:\r\na:\r\na:\r\na:\r\na:\r\na:\r\na:\r\na:\r\na:\r\na:\r\na:\r\na:\r\na:\r\na:\r\na:\r\na:\r\na:\r\na:\r\na:\r\na:\r\na:\r\na:\r\na:\r\na:\r\na:\r\na:\r\na:\r\na:\r\na:\r\na:\r\na:\r\na:\r\na:\r\na:\r\na:\r\na:\r\na:\r\n\r\n",
        answers: 1,
        each: "HTTP/1.1 ",
        parts: [
            "{\"settled\":1704067202,\"date\":\"2024-01-01T00:00:02Z\",\"changes\":260,\"last\":1704067201,\"pages\":{\"used\":22,\"of\":81},\"blocks\":{\"used\":0,\"of\":64},\"collectors\":[{\"collector\":0,\"mark\":1704067202,\"offered\":4,\"admitted\":4,\"ring\":{\"used\":0,\"of\":262144}}]}",
            "",
            "",
        ],
    },
    Conversation {
        sent: b"GET /api/info HTTP/1.1\r\na:\r\na:\r\na:\r\na:\r\na:\r\na:\r\na:\r\na:\r\na:\r\na:\r\na:\r\na:\r\na:\r\na:\r\na:\r\na:\r\na:\r\na:\r\na:\r\na:\r\na:\r\na:\r\na:\r\na:\r\na:\r\na:\r\na:\r\na:\r\na:\r\na:\r\na:\r\na:\r\na:\r\na:\r\na:\r\na:\r\na:\r\na:\r\na:\r\na:\r\na:\r\na:\r\na:\r\na:\r\na:\r\na:\r\na:\r\na:\r\na:\r\na:\r\na:\r\na:\r\na:\r\na:\r\na:\r\na:\r\na:\r\na:\r\na:\r\na:\r\na:\r\na:\r\na:\r\na:\r\na:\r\n\r\n",
        answers: 1,
        each: "HTTP/1.1 ",
        parts: [
            "HTTP/1.1 431 Request Header Fields Too Large\r\nContent-Type: application/json\r\nContent-Length: 100\r\nCache-Control: no-store\r\nX-Content-Type-Options: nosniff\r\nConnection: close\r\n\r\n{\"error\":{\"number\":28,\"name\":\"BadRequest\",\"message\":\"a head has at most 8192 octets and 64 fields\"}}",
            "",
            "",
        ],
    },
    Conversation {
        sent: b"",
        answers: 0,
        each: "HTTP/1.1 ",
        parts: ["", "", ""],
    },
    Conversation {
        sent: b"GET /api/info HTTP/1.1\r\nHost: x\r\n\r",
        answers: 0,
        each: "HTTP/1.1 ",
        parts: ["", "", ""],
    },
    Conversation {
        sent: b"GET /api/info HTTP/1.1\r\nHost: x\r\n\r\nGET /api/info HTTP/1.1\r\nHost: x\r\n",
        answers: 1,
        each: "HTTP/1.1 ",
        parts: [
            "{\"settled\":1704067202,\"date\":\"2024-01-01T00:00:02Z\",\"changes\":260,\"last\":1704067201,\"pages\":{\"used\":22,\"of\":81},\"blocks\":{\"used\":0,\"of\":64},\"collectors\":[{\"collector\":0,\"mark\":1704067202,\"offered\":4,\"admitted\":4,\"ring\":{\"used\":0,\"of\":262144}}]}",
            "",
            "",
        ],
    },
];
