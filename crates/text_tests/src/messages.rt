// The office's three documents split by hand, the offsets of faults, and texts of a builder read back.
use crate::pass;
use base_words::NoMemory;
use case_rows::Subject;
use std::alloc::Global;
use std::test::Fail;
use telex::{Builder, LONGEST_LINE, Message, Part, cut};

const LOADSHEET: &str = "LOADSHEET
XX210/12.DAIAB.FRA.ARN
EDNO 7
PAX 130/3
CABIN 10460
CONTAINERS 1800
LOOSE 320
TRAFFIC LOAD 12580
DRY OPERATING WEIGHT 42000
ZERO FUEL WEIGHT 54580 MAX 62500 L
TAKE OFF FUEL 9000
TAKE OFF WEIGHT 63580 MAX 73500
TRIP FUEL 6000
LANDING WEIGHT 57580 MAX 66000
UNDERLOAD 7920
DOI 50.00 LIZFW 51.66 LITOW 50.45 LILAW 51.65
MACZFW 25.79 MACTOW 25.23 MACLAW 25.74
END
";

// Each part after the separator before it and its offset.
const LOADSHEET_PARTS: &str = "0:LOADSHEET
10:XX210 /16:12 .19:DAIAB .25:FRA .29:ARN
33:EDNO 7
40:PAX 130 /48:3
50:CABIN 10460
62:CONTAINERS 1800
78:LOOSE 320
88:TRAFFIC LOAD 12580
107:DRY OPERATING WEIGHT 42000
134:ZERO FUEL WEIGHT 54580 MAX 62500 L
169:TAKE OFF FUEL 9000
188:TAKE OFF WEIGHT 63580 MAX 73500
220:TRIP FUEL 6000
235:LANDING WEIGHT 57580 MAX 66000
266:UNDERLOAD 7920
281:DOI 50 .288:00 LIZFW 51 .300:66 LITOW 50 .312:45 LILAW 51 .324:65
327:MACZFW 25 .337:79 MACTOW 25 .350:23 MACLAW 25 .363:74
366:END
";

const LDM: &str = "LDM
XX210/12.DAIAB.Y150.2/4
-ARN.120/10/3.T2120.1/1000.4/800.5/320.PAX/130
";

const LDM_PARTS: &str = "0:LDM
4:XX210 /10:12 .13:DAIAB .19:Y150 .24:2 /26:4
28:-ARN .33:120 /37:10 /40:3 .42:T2120 .48:1 /50:1000 .55:4 /57:800 .61:5 /63:320 .67:PAX /71:130
";

const CPM: &str = "CPM
XX210/12.DAIAB.Y150
-11/AKE10001XX/ARN/1000
-12/N
-41/N
-42/AKE10002XX/ARN/800
-51/ARN/320
";

const CPM_PARTS: &str = "0:CPM
4:XX210 /10:12 .13:DAIAB .19:Y150
24:-11 /28:AKE10001XX /39:ARN /43:1000
48:-12 /52:N
54:-41 /58:N
60:-42 /64:AKE10002XX /75:ARN /79:800
83:-51 /87:ARN /91:320
";

// An empty part at the front, in the middle and at the end of a line, and an empty line.
const EMPTY_PARTS: &str = "/A..B/\n\n.\n";

const EMPTY_PARTS_CUT: &str = "0: /1:A .3: .4:B /6:\n7:\n8: .9:\n";

fn write_part(out: &mut Builder, part: &Part<'_>) -> Result<(), NoMemory> {
    if part.before != 0 {
        out.text(&[b' ', part.before])?;
    }
    out.number(i64::try_from(part.at).unwrap_or(-1))?;
    out.text(b":")?;
    out.text(part.text)
}

fn listed(alloc: Global, message: &Message<'_>) -> Result<Vec<u8>, NoMemory> {
    let mut out = Builder::new(alloc);
    for line in message.lines() {
        for part in line.elements() {
            write_part(&mut out, &part)?;
        }
        out.end_line()?;
    }
    Ok(out.finish())
}

/// The parts of the text.
fn parts_of(alloc: Global, text: &str) -> Result<String, Fail> {
    let message = cut(text.as_bytes())?;
    Ok(String::from_utf8(listed(alloc, &message)?)?)
}

#[test]
fn documents_are_split_into_their_parts(rt: HostRuntime) -> Result<(), Fail> {
    let rows = [
        (LOADSHEET, LOADSHEET_PARTS),
        (LDM, LDM_PARTS),
        (CPM, CPM_PARTS),
        (EMPTY_PARTS, EMPTY_PARTS_CUT),
    ];
    for (text, parts) in rows {
        assert_eq!(rt; parts_of(rt.alloc(), text)?.as_str(), parts);
    }
    Ok(())
}

/// The fault of a text, in which a `@` stands for a line of the greatest length, and a `^` for a tilde.
struct Faults;

impl Subject for Faults {
    fn said(&self, alloc: Global, case: &str) -> Result<String, Fail> {
        let mut longest = String::new(alloc);
        for _ in 0..LONGEST_LINE {
            longest.push('A')?;
        }
        let text = String::from_str(alloc, case)?
            .replace(alloc, "@", longest.as_str())?
            .replace(alloc, "^", "~")?;
        Ok(format!(in alloc; "{:?}", cut(text.as_bytes()).err())?)
    }
}

// A line may have the greatest length, and not one character more.
#[test]
fn faults_have_their_offsets(rt: HostRuntime) {
    pass(
        &rt,
        rt.alloc(),
        &Faults,
        "None|LDM~XX210/12.DAIAB.Y150.2/4~-ARN.120/10/3.T2120.1/1000.4/800.5/320.PAX/130~",
    );
    let rows = "None|~
None| ^~
None|@~
Some(BadByte(2))|LD\x07~
Some(BadByte(2))|LD\x07\x07
Some(BadByte(0))|\x1F~
Some(BadByte(3))|LDM\r~
Some(LineTooLong(2))|@~@A~
Some(LineTooLong(1))|@A
Some(BadByte(201))|@A\x7F
Some(NoEnd)|
Some(NoEnd)|LDM
Some(NoEnd)|LDM~END";
    pass(&rt, rt.alloc(), &Faults, rows);
}

/// The parts of a text of two lines that a builder made, the first of a word and numbers.
fn built(alloc: Global) -> Result<String, Fail> {
    let mut out = Builder::new(alloc);
    out.text(b"DELTA")?;
    for n in [0, -7, 42, i64::MAX, i64::MIN] {
        out.text(b"/")?;
        out.number(n)?;
    }
    out.end_line()?;
    out.text(b"END")?;
    out.end_line()?;
    Ok(String::from_utf8(out.finish())?)
}

#[test]
fn a_built_text_is_read_back(rt: HostRuntime) -> Result<(), Fail> {
    let built = built(rt.alloc())?;
    assert_eq!(rt;
        parts_of(rt.alloc(), built.as_str())?.as_str(),
        "0:DELTA /6:0 /8:-7 /11:42 /14:9223372036854775807 /34:-9223372036854775808\n55:END\n"
    );
    Ok(())
}
