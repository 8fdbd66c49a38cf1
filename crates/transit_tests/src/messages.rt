// Whether two inbound messages agree, and the message with which the flight goes on.
use crate::pass;
use crate::texts::{HEADING, STATION, message_with, task_with};
use case_rows::{Subject, edited};
use flight_state::Station;
use hold_limits::{Path, Task, is_sound};
use ldm_cpm::{read_cpm, read_ldm};
use std::alloc::Global;
use std::str;
use std::test::Fail;
use transit_messages::{agree, staying, write_onward};
use transit_tasks::with_staying;

/// What came in: a container that goes on, and one and a loose load for `FRA`.
const LDM: &str = "LDM
XX210/12.DAIAB.Y150.2/4
-FRA.0/0/0.T1920.1/900.4/700.5/320.PAX/0
";

const INBOUND: &str = "-11/N
-12/AKE20001XX/ARN/900
-41/AKE20002XX/FRA/700
-51/FRA/320";

/// Edits of the load message: what is said of it beside the container message.
struct Agreement;

impl Subject for Agreement {
    fn said(&self, alloc: Global, case: &str) -> Result<String, Fail> {
        let load = edited(alloc, LDM, case)?;
        let message = message_with(alloc, INBOUND)?;
        let ldm = read_ldm(alloc, load.as_bytes())?;
        let cpm = read_cpm(alloc, message.as_bytes())?;
        Ok(format!(in alloc; "{:?}", agree(&ldm, &cpm))?)
    }
}

#[test]
fn messages_of_one_flight_and_one_mass_agree(rt: HostRuntime) {
    let rows = "Ok(())|
Ok(())|FRA.0/0/0=>ARN.1/2/3|PAX/0=>PAX/3
Ok(())|1/900.4/700.5/320=>5/1920
Err(Heads)|Y150=>Y151
Err(Heads)|XX210=>XX211
Err(Heads)|/12.=>/13.
Err(Heads)|DAIAB=>DAIAC
Err(Totals(Kg(1600), 1920))|T1920=>T1600|.5/320=>
Err(Totals(Kg(2020), 1920))|T1920=>T2020|4/700=>4/800
Err(Heads)|Y150=>Y151|T1920=>T1600|.5/320=>";
    pass(&rt, rt.alloc(), &Agreement, rows);
}

/// The onward message over the positions of the task, where the path is placed around what stays.
fn onward(alloc: Global, task: &Task, message: &str, path: &Path) -> Result<Vec<u8>, Fail> {
    let cpm = read_cpm(alloc, message.as_bytes())?;
    let stay = staying(alloc, &cpm, STATION)?;
    let around = with_staying(alloc, task, stay.as_slice())?;
    if !is_sound(&around, path.as_slice()) {
        return Err(Fail::new("the path is not sound"));
    }
    let next = Station::read(b"ARN").ok_or("a station is not spelled")?;
    Ok(write_onward(alloc, &cpm.head, task, stay.as_slice(), path, next.bytes())?)
}

fn path_of(alloc: Global, digits: &str) -> Result<Path, Fail> {
    let mut numbers = Vec::new(alloc);
    for digit in digits.as_bytes() {
        numbers.push(*digit & 15)?;
    }
    Ok(Path::try_from(numbers.as_slice())?)
}

/// The numbers of the path, a digit each, the lines of the inbound message, and edits of the task: how many positions
/// are read of the onward message, and its lines behind the same heading.
struct OnwardLines;

impl Subject for OnwardLines {
    fn said(&self, alloc: Global, case: &str) -> Result<String, Fail> {
        let (digits, case) = case.split_once('|').unwrap_or((case, ""));
        let (lines, edits) = case.split_once('|').unwrap_or((case, ""));
        let task = task_with(alloc, edits)?;
        let message = message_with(alloc, lines)?;
        let text = onward(alloc, &task, message.as_str(), &path_of(alloc, digits)?)?;
        let count = read_cpm(alloc, text.as_slice())?.places.as_slice().len();
        let text = str::from_utf8(text.as_slice())?;
        let lines = text.strip_prefix(HEADING).ok_or("the heading is another")?;
        Ok(format!(in alloc; "{count}\n{lines}")?)
    }
}

/// The worked flight; a loose load for the next station, and one of no mass; and a loose load that stays where nothing
/// is placed, with an inbound message that has the positions in another order, one that the hold has not, and not all.
const ONWARD: &str =
    "4~-11/AKE10002XX/ARN/800~-12/AKE20001XX/ARN/900~-41/N~-42/AKE10001XX/ARN/1000~|30|-11/N~-12/AKE20001XX/ARN/900~-41/AKE20002XX/FRA/700~-42/N|item AKE10003XX 600~=>|bulk 51 5 900~=>
5~-11/AKE10002XX/ARN/800~-12/AKE20001XX/JFK/900~-41/N~-42/AKE10001XX/ARN/1000~-51/ARN/320~|30|-12/AKE20001XX/JFK/900|item AKE10003XX 600~=>|base 50=>loose 51 320~base 50
5~-11/AKE10002XX/ARN/800~-12/AKE20001XX/JFK/0~-41/AKE10003XX/ARN/600~-42/AKE10001XX/ARN/1000~-51/N~|302|-12/AKE20001XX/JFK/0|base 50=>loose 51 0~base 50
5~-11/N~-12/AKE20001XX/JFK/900~-41/N~-42/N~-51/JFK/300~||-51/JFK/300~-99/N~-12/AKE20001XX/JFK/900|item AKE10001XX 1000~item AKE10002XX 800~item AKE10003XX 600~=>";

#[test]
fn the_onward_message_has_what_stays_and_what_is_placed(rt: HostRuntime) {
    pass(&rt, rt.alloc(), &OnwardLines, ONWARD);
}
