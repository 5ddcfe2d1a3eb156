//! What is told of sample plants with a part of their text replaced, and of other bytes.
//!
//! The functions promise nothing of their tables, so that the proofs of the tests do not read them.

use super::samples::{LATE_VESSEL, ONE_BERTH, ONE_CHARGE, TWO_BERTHS, TWO_VESSELS};

type Case = (&'static str, &'static str, &'static str, &'static str);

// A sample, a part of its text, what is put in its place, and what is told then.
const CHANGED: &[Case] = &[
    (ONE_CHARGE, "{\"format\"", "{\"format\"", "plant"),
    (ONE_CHARGE, "\"format\":1", " \"format\" : 1 ", "plant"),
    (
        ONE_CHARGE,
        "\"format\":1,\"horizon\":2,",
        "\"horizon\":2,\"format\":1,",
        "plant",
    ),
    (
        ONE_CHARGE,
        "\"horizon\":2",
        "\"horizon\":3,\"horizon\":2",
        "plant",
    ),
    (
        ONE_CHARGE,
        "\"properties\":[]}],",
        "\"properties\":[]},],",
        "json",
    ),
    (ONE_CHARGE, "\"format\":1", "\"format\":01", "json"),
    (
        ONE_CHARGE,
        "\"horizon\":2",
        "\"horizon\":2.0",
        "shape plant 0 horizon",
    ),
    (
        ONE_CHARGE,
        "\"horizon\":2",
        "\"horizon\":-0",
        "shape plant 0 horizon",
    ),
    (
        ONE_CHARGE,
        "\"horizon\":2",
        "\"horizon\":2e0",
        "shape plant 0 horizon",
    ),
    (
        ONE_CHARGE,
        "\"horizon\":2",
        "\"horizon\":9223372036854775808",
        "shape plant 0 horizon",
    ),
    (ONE_CHARGE, "\"horizon\":2,", "", "shape plant 0 horizon"),
    (ONE_CHARGE, "\"format\":1", "\"format\":3", "plant"),
    (
        ONE_CHARGE,
        "\"format\":1",
        "\"format\":0",
        "shape plant 0 format",
    ),
    (
        ONE_CHARGE,
        "\"format\":1",
        "\"format\":4",
        "shape plant 0 format",
    ),
    (
        ONE_CHARGE,
        "\"format\":1",
        "\"format\":true",
        "shape plant 0 format",
    ),
    (
        ONE_CHARGE,
        "\"format\":1",
        "\"Format\":1",
        "shape plant 0 format",
    ),
    (
        ONE_CHARGE,
        "\"format\":1",
        "\"format\":1,\"name\":\"P\"",
        "shape plant 0 entry",
    ),
    (
        ONE_CHARGE,
        "\"vessels\":[]",
        "\"vessels\":{}",
        "shape vessels 0 list",
    ),
    (ONE_CHARGE, "\"vessels\":[],", "", "shape vessels 0 list"),
    (
        ONE_CHARGE,
        "\"crudes\":[",
        "\"crudes\":[7,",
        "shape crudes 1 entry",
    ),
    (
        ONE_CHARGE,
        "\"margin\":3",
        "\"margin\":\"3\"",
        "shape crudes 1 margin",
    ),
    (
        ONE_CHARGE,
        "\"margin\":3",
        "\"margin\":3,\"sulphur\":1",
        "shape crudes 1 entry",
    ),
    (
        ONE_CHARGE,
        "\"amounts\":[4]",
        "\"amounts\":[4.5]",
        "shape charging 1 amounts",
    ),
    (
        ONE_CHARGE,
        "\"demand\":[0,10000000]",
        "\"demand\":[0]",
        "shape charging 1 demand",
    ),
    (
        ONE_CHARGE,
        "\"demand\":[0,10000000]",
        "\"demand\":[0,1,2]",
        "shape charging 1 demand",
    ),
    (
        ONE_CHARGE,
        "\"continuous\":false",
        "\"continuous\":0",
        "shape units 1 continuous",
    ),
    (
        ONE_CHARGE,
        "\"limits\":[]",
        "\"limits\":[[1]]",
        "shape operations 1 limits",
    ),
    (
        ONE_CHARGE,
        "\"limits\":[]",
        "\"limits\":[1,2]",
        "shape operations 1 limits",
    ),
    (
        ONE_CHARGE,
        "\"to\":\"U\"",
        "\"to\":null",
        "shape operations 1 to",
    ),
    (
        ONE_CHARGE,
        "\"storage\":[]",
        "\"storage\":[3]",
        "shape storage 1 entry",
    ),
    (
        ONE_CHARGE,
        "\"properties\":[],\"crudes\"",
        "\"properties\":[0],\"crudes\"",
        "shape properties 1 name",
    ),
    (
        ONE_CHARGE,
        "\"units\":[",
        "\"units\":[0,",
        "shape units 1 entry",
    ),
    (
        ONE_CHARGE,
        "\"horizon\":2",
        "\"horizon\":0",
        "1 plant 0 horizon",
    ),
    (
        ONE_CHARGE,
        "\"margin\":3",
        "\"margin\":1000001",
        "10 crudes 1 margin",
    ),
    (
        ONE_CHARGE,
        "\"name\":\"U\"",
        "\"name\":\"C1\"",
        "9 units 1 name",
    ),
    (
        ONE_CHARGE,
        "\"name\":\"U\"",
        "\"name\":\"a unit\"",
        "8 units 1 name",
    ),
    (
        ONE_CHARGE,
        "\"to\":\"U\"",
        "\"to\":\"V\"",
        "20 operations 1 to",
    ),
    (
        ONE_CHARGE,
        "\"window\":[0,2]",
        "\"window\":[0,3]",
        "22 operations 1 window",
    ),
    (
        ONE_CHARGE,
        "\"horizon\":2,\"properties\":[],\"crudes\":[{\"name\":\"A\",\"margin\":3",
        "\"horizon\":0,\"properties\":[],\"crudes\":[{\"name\":\"A\",\"margin\":1000001",
        "1 plant 0 horizon",
    ),
    (
        TWO_VESSELS,
        "\"arrival\":0,\"amounts\":[1000000,0]},{\"name\":\"V2\",\"arrival\":5760",
        "\"arrival\":5,\"amounts\":[1000000,0]},{\"name\":\"V2\",\"arrival\":3",
        "16 vessels 2 arrival",
    ),
    (
        TWO_VESSELS,
        "\"properties\":[\"sulphur\"]",
        "\"properties\":[\"sulphur\",5]",
        "shape properties 2 name",
    ),
    (
        TWO_VESSELS,
        "\"limits\":[[0,700]]",
        "\"limits\":[[0,700],[0,1]]",
        "22 operations 8 limits",
    ),
    (
        TWO_BERTHS,
        "\"amounts\":[4],\"berth\":1",
        "\"amounts\":[4]",
        "shape vessels 1 berth",
    ),
    (
        TWO_BERTHS,
        "\"berth\":1",
        "\"berth\":13",
        "23 vessels 1 berth",
    ),
    (TWO_BERTHS, "\"berth\":2", "\"berth\":12", "plant"),
    (
        TWO_BERTHS,
        "\"berth\":2",
        "\"berth\":2,\"demurrage\":0",
        "shape vessels 2 entry",
    ),
    (
        TWO_BERTHS,
        "\"format\":2",
        "\"format\":1",
        "shape vessels 1 entry",
    ),
    (
        TWO_BERTHS,
        "\"format\":2",
        "\"format\":3",
        "shape vessels 1 demurrage",
    ),
    (
        ONE_BERTH,
        "\"amounts\":[4]},{",
        "\"amounts\":[4],\"berth\":1},{",
        "shape vessels 1 entry",
    ),
    (
        LATE_VESSEL,
        "\"demurrage\":5",
        "\"demurrage\":1001",
        "24 vessels 1 demurrage",
    ),
    (
        LATE_VESSEL,
        "\"format\":3",
        "\"format\":4",
        "shape plant 0 format",
    ),
    (
        LATE_VESSEL,
        "\"window\":[1,4]",
        "\"window\":[0,4]",
        "22 operations 1 window",
    ),
];

pub(crate) fn changed_texts() -> &'static [Case] {
    CHANGED
}

type Text = (&'static [u8], &'static str);

const OTHERS: &[Text] = &[
    (b"[]", "shape plant 0 entry"),
    (b"{}", "shape plant 0 format"),
    (b"", "json"),
    (b"\"\xff\"", "json"),
    (b"\xef\xbb\xbf{}", "json"),
    (b"{} {}", "json"),
];

pub(crate) fn told_texts() -> &'static [Text] {
    OTHERS
}
