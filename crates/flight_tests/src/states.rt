// The small texts of a flight, and its key.
use flight_state::{Day, FlightKey, FlightName, Station};
use std::test::Fail;
use worked_day::leg;

#[test]
fn flights_are_spelled_with_an_airline_and_a_number(rt: HostRuntime) {
    let spelled: [&[u8]; 5] = [b"XX210", b"A11", b"XX9999A", b"991", b"991A"];
    for text in spelled {
        assert!(rt; FlightName::read(text).is_some_and(|flight| flight.bytes() == text));
    }
    let wrong: [&[u8]; 7] = [b"", b"XX", b"XXA", b"XX12345", b"XX1AB", b"xx1", b"XX 1"];
    for text in wrong {
        assert!(rt; FlightName::read(text).is_none());
    }
}

#[test]
fn days_have_two_digits(rt: HostRuntime) {
    let spelled: [&[u8]; 3] = [b"01", b"12", b"31"];
    for text in spelled {
        assert!(rt; Day::read(text).is_some_and(|day| day.bytes() == text));
    }
    let wrong: [&[u8]; 5] = [b"", b"1", b"00", b"32", b"1A"];
    for text in wrong {
        assert!(rt; Day::read(text).is_none());
    }
}

#[test]
fn stations_have_three_capitals(rt: HostRuntime) {
    assert!(rt; Station::read(b"FRA").is_some_and(|station| station.bytes() == b"FRA".as_slice()));
    let wrong: [&[u8]; 4] = [b"", b"FR", b"FRAN", b"FR1"];
    for text in wrong {
        assert!(rt; Station::read(text).is_none());
    }
}

#[test]
fn a_key_is_a_flight_and_a_day(rt: HostRuntime) -> Result<(), Fail> {
    let leg = leg()?;
    let key = FlightKey::of(&leg);
    assert_eq!(rt; key.bytes(), b"XX210-12".as_slice());
    assert!(rt; FlightKey::read(b"XX210-12").is_some_and(|read| read.bytes() == key.bytes()));
    let wrong: [&[u8]; 5] = [b"", b"XX210", b"XX21012", b"XX210-32", b"X-12"];
    for text in wrong {
        assert!(rt; FlightKey::read(text).is_none());
    }
    Ok(())
}
