//! Plants as they are written, each as its one text without the line feed.

/// A tank of 4 volume units that one operation charges.
pub(crate) const ONE_CHARGE: &str =
    "{\"format\":1,\"horizon\":2,\"properties\":[],\"crudes\":[{\"name\":\"A\",\"margin\":3,\"properties\":[]}],\"vessels\":[],\"storage\":[],\"charging\":[{\"name\":\"C1\",\"min\":0,\"max\":10,\"amounts\":[4],\"demand\":[0,10000000]}],\"units\":[{\"name\":\"U\",\"continuous\":false,\"charges\":[0,40]}],\"operations\":[{\"name\":\"c1\",\"from\":\"C1\",\"to\":\"U\",\"rate\":[0,2880],\"volume\":[1,4],\"window\":[0,2],\"limits\":[]}]}";

/// Two storage tanks that fill one charging tank.
const TWO_INLETS: &str =
    "{\"format\":1,\"horizon\":4,\"properties\":[],\"crudes\":[{\"name\":\"A\",\"margin\":1,\"properties\":[]}],\"vessels\":[],\"storage\":[{\"name\":\"S1\",\"min\":0,\"max\":10,\"amounts\":[5]},{\"name\":\"S2\",\"min\":0,\"max\":10,\"amounts\":[5]}],\"charging\":[{\"name\":\"C1\",\"min\":0,\"max\":10,\"amounts\":[2],\"demand\":[0,10000000]}],\"units\":[{\"name\":\"U\",\"continuous\":false,\"charges\":[0,40]}],\"operations\":[{\"name\":\"T1\",\"from\":\"S1\",\"to\":\"C1\",\"rate\":[0,14400],\"volume\":[1,10],\"window\":[0,4],\"limits\":[]},{\"name\":\"T2\",\"from\":\"S2\",\"to\":\"C1\",\"rate\":[0,14400],\"volume\":[1,10],\"window\":[0,4],\"limits\":[]},{\"name\":\"G\",\"from\":\"C1\",\"to\":\"U\",\"rate\":[0,14400],\"volume\":[1,10],\"window\":[0,4],\"limits\":[]}]}";

/// Two vessels with crudes of different sulphur, for a unit that has to be charged at every minute.
pub(crate) const TWO_VESSELS: &str =
    "{\"format\":1,\"horizon\":11520,\"properties\":[\"sulphur\"],\"crudes\":[{\"name\":\"A\",\"margin\":9,\"properties\":[100]},{\"name\":\"B\",\"margin\":6,\"properties\":[600]}],\"vessels\":[{\"name\":\"V1\",\"arrival\":0,\"amounts\":[1000000,0]},{\"name\":\"V2\",\"arrival\":5760,\"amounts\":[0,1000000]}],\"storage\":[{\"name\":\"S1\",\"min\":0,\"max\":2000000,\"amounts\":[250000,0]},{\"name\":\"S2\",\"min\":0,\"max\":2000000,\"amounts\":[0,750000]}],\"charging\":[{\"name\":\"C1\",\"min\":0,\"max\":1000000,\"amounts\":[500000,0],\"demand\":[0,1000000]},{\"name\":\"C2\",\"min\":0,\"max\":1000000,\"amounts\":[0,500000],\"demand\":[0,1000000]}],\"units\":[{\"name\":\"CDU\",\"continuous\":true,\"charges\":[2,8]}],\"operations\":[{\"name\":\"u1\",\"from\":\"V1\",\"to\":\"S1\",\"rate\":[0,500000],\"volume\":[1,1000000],\"window\":[0,11520],\"limits\":[]},{\"name\":\"u2\",\"from\":\"V2\",\"to\":\"S2\",\"rate\":[0,500000],\"volume\":[1,1000000],\"window\":[5760,11520],\"limits\":[]},{\"name\":\"t1\",\"from\":\"S1\",\"to\":\"C1\",\"rate\":[0,500000],\"volume\":[1,1000000],\"window\":[0,11520],\"limits\":[]},{\"name\":\"t2\",\"from\":\"S1\",\"to\":\"C2\",\"rate\":[0,500000],\"volume\":[1,1000000],\"window\":[0,11520],\"limits\":[]},{\"name\":\"t3\",\"from\":\"S2\",\"to\":\"C1\",\"rate\":[0,500000],\"volume\":[1,1000000],\"window\":[0,11520],\"limits\":[]},{\"name\":\"t4\",\"from\":\"S2\",\"to\":\"C2\",\"rate\":[0,500000],\"volume\":[1,1000000],\"window\":[0,11520],\"limits\":[]},{\"name\":\"c1\",\"from\":\"C1\",\"to\":\"CDU\",\"rate\":[50000,500000],\"volume\":[1,1000000],\"window\":[0,11520],\"limits\":[[0,150]]},{\"name\":\"c2\",\"from\":\"C2\",\"to\":\"CDU\",\"rate\":[50000,500000],\"volume\":[1,1000000],\"window\":[0,11520],\"limits\":[[0,700]]}]}";

/// Two vessels at two berths, in format 2.
pub(crate) const TWO_BERTHS: &str =
    "{\"format\":2,\"horizon\":2,\"properties\":[],\"crudes\":[{\"name\":\"A\",\"margin\":1,\"properties\":[]}],\"vessels\":[{\"name\":\"V1\",\"arrival\":0,\"amounts\":[4],\"berth\":1},{\"name\":\"V2\",\"arrival\":0,\"amounts\":[4],\"berth\":2}],\"storage\":[{\"name\":\"S1\",\"min\":0,\"max\":10,\"amounts\":[0]},{\"name\":\"S2\",\"min\":0,\"max\":10,\"amounts\":[0]}],\"charging\":[],\"units\":[],\"operations\":[{\"name\":\"u1\",\"from\":\"V1\",\"to\":\"S1\",\"rate\":[0,2880],\"volume\":[1,4],\"window\":[0,2],\"limits\":[]},{\"name\":\"u2\",\"from\":\"V2\",\"to\":\"S2\",\"rate\":[0,2880],\"volume\":[1,4],\"window\":[0,2],\"limits\":[]}]}";

/// The same vessels at one berth, in format 1.
pub(crate) const ONE_BERTH: &str =
    "{\"format\":1,\"horizon\":2,\"properties\":[],\"crudes\":[{\"name\":\"A\",\"margin\":1,\"properties\":[]}],\"vessels\":[{\"name\":\"V1\",\"arrival\":0,\"amounts\":[4]},{\"name\":\"V2\",\"arrival\":0,\"amounts\":[4]}],\"storage\":[{\"name\":\"S1\",\"min\":0,\"max\":10,\"amounts\":[0]},{\"name\":\"S2\",\"min\":0,\"max\":10,\"amounts\":[0]}],\"charging\":[],\"units\":[],\"operations\":[{\"name\":\"u1\",\"from\":\"V1\",\"to\":\"S1\",\"rate\":[0,2880],\"volume\":[1,4],\"window\":[0,2],\"limits\":[]},{\"name\":\"u2\",\"from\":\"V2\",\"to\":\"S2\",\"rate\":[0,2880],\"volume\":[1,4],\"window\":[0,2],\"limits\":[]}]}";

/// A vessel that pays for each minute, in format 3.
pub(crate) const LATE_VESSEL: &str =
    "{\"format\":3,\"horizon\":4,\"properties\":[],\"crudes\":[{\"name\":\"A\",\"margin\":1,\"properties\":[]}],\"vessels\":[{\"name\":\"V1\",\"arrival\":1,\"amounts\":[4],\"berth\":1,\"demurrage\":5}],\"storage\":[{\"name\":\"S1\",\"min\":0,\"max\":10,\"amounts\":[0]}],\"charging\":[],\"units\":[],\"operations\":[{\"name\":\"u1\",\"from\":\"V1\",\"to\":\"S1\",\"rate\":[0,2880],\"volume\":[1,4],\"window\":[1,4],\"limits\":[]}]}";

/// `ONE_CHARGE` with the keys of each object from the last to the first.
const TURNED_ROUND: &str =
    "{\"operations\":[{\"limits\":[],\"window\":[0,2],\"volume\":[1,4],\"rate\":[0,2880],\"to\":\"U\",\"from\":\"C1\",\"name\":\"c1\"}],\"units\":[{\"charges\":[0,40],\"continuous\":false,\"name\":\"U\"}],\"charging\":[{\"demand\":[0,10000000],\"amounts\":[4],\"max\":10,\"min\":0,\"name\":\"C1\"}],\"storage\":[],\"vessels\":[],\"crudes\":[{\"properties\":[],\"margin\":3,\"name\":\"A\"}],\"properties\":[],\"horizon\":2,\"format\":1}";

/// `LATE_VESSEL` where the vessel pays nothing, which format 3 may tell too.
const FREE_VESSEL: &str =
    "{\"format\":3,\"horizon\":4,\"properties\":[],\"crudes\":[{\"name\":\"A\",\"margin\":1,\"properties\":[]}],\"vessels\":[{\"name\":\"V1\",\"arrival\":1,\"amounts\":[4],\"berth\":1,\"demurrage\":0}],\"storage\":[{\"name\":\"S1\",\"min\":0,\"max\":10,\"amounts\":[0]}],\"charging\":[],\"units\":[],\"operations\":[{\"name\":\"u1\",\"from\":\"V1\",\"to\":\"S1\",\"rate\":[0,2880],\"volume\":[1,4],\"window\":[1,4],\"limits\":[]}]}";

/// How that plant is written.
const FREE_VESSEL_TOLD: &str =
    "{\"format\":1,\"horizon\":4,\"properties\":[],\"crudes\":[{\"name\":\"A\",\"margin\":1,\"properties\":[]}],\"vessels\":[{\"name\":\"V1\",\"arrival\":1,\"amounts\":[4]}],\"storage\":[{\"name\":\"S1\",\"min\":0,\"max\":10,\"amounts\":[0]}],\"charging\":[],\"units\":[],\"operations\":[{\"name\":\"u1\",\"from\":\"V1\",\"to\":\"S1\",\"rate\":[0,2880],\"volume\":[1,4],\"window\":[1,4],\"limits\":[]}]}";

/// The same with the vessel at another berth.
const OTHER_BERTH: &str =
    "{\"format\":3,\"horizon\":4,\"properties\":[],\"crudes\":[{\"name\":\"A\",\"margin\":1,\"properties\":[]}],\"vessels\":[{\"name\":\"V1\",\"arrival\":1,\"amounts\":[4],\"berth\":2,\"demurrage\":0}],\"storage\":[{\"name\":\"S1\",\"min\":0,\"max\":10,\"amounts\":[0]}],\"charging\":[],\"units\":[],\"operations\":[{\"name\":\"u1\",\"from\":\"V1\",\"to\":\"S1\",\"rate\":[0,2880],\"volume\":[1,4],\"window\":[1,4],\"limits\":[]}]}";

/// How that plant is written.
const OTHER_BERTH_TOLD: &str =
    "{\"format\":2,\"horizon\":4,\"properties\":[],\"crudes\":[{\"name\":\"A\",\"margin\":1,\"properties\":[]}],\"vessels\":[{\"name\":\"V1\",\"arrival\":1,\"amounts\":[4],\"berth\":2}],\"storage\":[{\"name\":\"S1\",\"min\":0,\"max\":10,\"amounts\":[0]}],\"charging\":[],\"units\":[],\"operations\":[{\"name\":\"u1\",\"from\":\"V1\",\"to\":\"S1\",\"rate\":[0,2880],\"volume\":[1,4],\"window\":[1,4],\"limits\":[]}]}";

// A text, and the one text of its plant.
const TEXTS: &[(&str, &str)] = &[
    (ONE_CHARGE, ONE_CHARGE),
    (TWO_INLETS, TWO_INLETS),
    (TWO_VESSELS, TWO_VESSELS),
    (TWO_BERTHS, TWO_BERTHS),
    (ONE_BERTH, ONE_BERTH),
    (LATE_VESSEL, LATE_VESSEL),
    (TURNED_ROUND, ONE_CHARGE),
    (FREE_VESSEL, FREE_VESSEL_TOLD),
    (OTHER_BERTH, OTHER_BERTH_TOLD),
];

/// It promises nothing of the table, so that the proofs of the tests do not read it.
pub(crate) fn sample_texts() -> &'static [(&'static str, &'static str)] {
    TEXTS
}
