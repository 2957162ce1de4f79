// Times after which the same was shown.
use mh_base::Bytes;
use std::alloc::Global;
use std::test::Fail;

/// The times after which the same was shown.
#[derive(Drop)]
pub(crate) struct Stretch {
    times: Vec<u64>,
    shown: Bytes,
}

/// The first of these stretches, from this place on, that has the same.
fn place_of(stretches: &[Stretch], from: usize, shown: &Bytes) -> Option<usize> {
    for (place, stretch) in stretches.iter().enumerate() {
        if place >= from && stretch.shown.same(shown) {
            return Some(place);
        }
    }
    None
}

/// The time is told with those after which the same was shown, of the stretches from this place on.
pub(crate) fn add_time(
    alloc: Global,
    stretches: &mut Vec<Stretch>,
    from: usize,
    time: u64,
    shown: Bytes,
) -> Result<(), Fail> {
    if let Some(place) = place_of(stretches, from, &shown) {
        if let Some(stretch) = stretches.get_mut(place) {
            return Ok(stretch.times.push(time)?);
        }
    }
    let times = vec![in alloc; time; 1]?;
    Ok(stretches.push(Stretch { times, shown })?)
}

fn show_each(alloc: Global, told: &mut Bytes, times: &[u64]) -> Result<(), Fail> {
    told.extend(b"@")?;
    for time in times {
        told.extend(format!(in alloc; " {time}")?.as_bytes())?;
    }
    told.extend(b"\n")?;
    Ok(())
}

/// The first and the last of these times, or all of them where they aren't one behind the other.
fn show_times(alloc: Global, told: &mut Bytes, times: &[u64]) -> Result<(), Fail> {
    let first = times.first().copied().unwrap_or(0);
    let last = times.last().copied().unwrap_or(0);
    if last.saturating_sub(first).saturating_add(1) != times.len() as u64 {
        return show_each(alloc, told, times);
    }
    told.extend(format!(in alloc; "@ {first}-{last}\n")?.as_bytes())?;
    Ok(())
}

/// The times, and what was shown.
pub(crate) fn show_stretches(
    alloc: Global,
    told: &mut Bytes,
    stretches: &[Stretch],
) -> Result<(), Fail> {
    for stretch in stretches {
        show_times(alloc, told, stretch.times.as_slice())?;
        told.extend(stretch.shown.as_slice())?;
    }
    Ok(())
}
