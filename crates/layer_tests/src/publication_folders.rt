//! The folder in which an election is published. SHA256SUMS covers all other files, and `sha256sum` made the expected one.

use crate::sheet_outputs::is_text;
use publication::{PublishFault, PublishedElection, WardTexts, published_files};
use std::test::Fail;

const SUMS: &str = "\
2fb232a4dd09948e04818ee479aa2db093c57f137a48d1296bd3d2f5cf78f681  index.html
2169ebddefbbdaa6874edcfbdfbcdba03be1cd3b18ffa94c120e4e436d21077c  ward-7.html
d8a535e5f0e39a0e980481dadbae6a8109a404c079278ef6a643dc67bbbf00f8  ward-7-sheet.txt
e9dadae2554c84285714a56558eb61b2aaa2463cae18c25fb0f588fd27150cac  ward-7-declaration.txt
fd6a08d5f8497038834fb3074f1c4c7bd63b2ac23a50721b2a10ef8684a86e05  ward-7-table.csv
3a7f327bfe69c9470c493c0d55fb831b44127df8024041cf01032ea7fe42b41f  ward-7-ballots.txt
a4082d64b4eea6239fe979753a9f7167c079934423b2fdd0c51545e43bd4bace  ward-12.html
f021dd4815ad0e545bd7723d3be010cf0b80c5f731128ab064eddcd15094d9ba  ward-12-sheet.txt
a1fb50e6c86fae1679ef3351296fd6713411a08cf8dd1790a4fd05fae8688164  ward-12-table.csv
2b93a4f67c0b2d9782ad43784ce93594f86380fcc19f01bb16368826c1268ffd  results.json
101f2b6c5f024ad678e2d3bcbcce798c3e3b54ab236e5c71a5a20efdd715bf91  check.html
";

/// A declared ward whose ballots are published, and one that isn't declared, with a name of markup and letters beyond ASCII.
const WARDS: [WardTexts<'static>; 2] = [
    WardTexts {
        number: 7,
        name: "Harbour",
        page: "<html>\n<body>\n<p>seven</p>\n</body>\n</html>\n",
        sheet: "the sheet\n",
        declaration: Some("the declaration\n"),
        table: "\"candidate\"\n",
        results: "{\"ward\":7}\n",
        ballots: Some("the ballots\n"),
    },
    WardTexts {
        number: 12,
        name: "<Hill> & \"Dâle\"",
        page: "<html>\n<body>\n<p>twelve</p>\n</body>\n</html>\n",
        sheet: "sheet 12\n",
        declaration: None,
        table: "12\n",
        results: "{\"ward\":12}\n",
        ballots: None,
    },
];

#[test]
fn publishes_a_folder(rt: HostRuntime) -> Result<(), Fail> {
    let election = PublishedElection {
        title: "City \"A\" & <B>\\\t",
        index: "<html>\n<body>\n<p>all</p>\n</body>\n</html>\n",
        wards: &WARDS,
    };
    let files = published_files(rt.alloc(), &election)?;
    let sums = files.last().ok_or("no file")?;
    is_text(&rt, sums.name.as_str(), "SHA256SUMS");
    is_text(&rt, sums.text.as_str(), SUMS);
    let unended = PublishedElection {
        index: "all",
        ..election
    };
    let refused = published_files(rt.alloc(), &unended).err();
    assert_eq!(rt; refused, Some(PublishFault::NotAPage));
    let twice = PublishedElection {
        wards: &[WARDS[0], WARDS[0]],
        ..election
    };
    let refused = published_files(rt.alloc(), &twice).err();
    assert_eq!(rt; refused, Some(PublishFault::WardOrder));
    Ok(())
}
