use access_path::{Path, covers, cut, rest};
use vet_base::KeyId;

/// The keys 1, 2 .. in front of one another, the last one first.
fn rising(count: u32) -> Path {
    let mut path = Path::empty();
    for i in 0..count {
        path = cut(KeyId(count - i), &path);
    }
    path
}

const SIX: [KeyId; 6] = [KeyId(1), KeyId(2), KeyId(3), KeyId(4), KeyId(5), KeyId(6)];

const SEVEN: [KeyId; 7] = [
    KeyId(1),
    KeyId(2),
    KeyId(3),
    KeyId(4),
    KeyId(5),
    KeyId(7),
    KeyId(6),
];

/// Whether a path covers the first four, the first five and all six of the keys, and the seven.
fn covered(path: &Path) -> [bool; 4] {
    [
        covers(path, &SIX[..4]),
        covers(path, &SIX[..5]),
        covers(path, &SIX),
        covers(path, &SEVEN),
    ]
}

#[test]
fn five_keys_are_told_to_the_last(rt: HostRuntime) {
    let path = rising(5);
    assert_eq!(rt; Path::from_keys(false, &SIX[..5]), Some(path));
    let looks = (path.is_open(), covered(&path));
    assert_eq!(rt; looks, (false, [false, true, false, false]));
}

#[test]
fn of_six_keys_the_last_is_left_open(rt: HostRuntime) {
    let path = rising(6);
    let by_keys = [
        Path::from_keys(true, &SIX[..5]),
        Path::from_keys(false, &SIX),
    ];
    assert_eq!(rt; by_keys, [Some(path), None]);
    let looks = (path.is_open(), covered(&path));
    assert_eq!(rt; looks, (true, [false, true, true, true]));
}

/// What lies behind the first key of six, whether that covers
/// the five others, and what lies behind the first key in it.
fn behind_six() -> (Option<Path>, bool, Option<Path>) {
    match rest(&rising(6), KeyId(1)) {
        Some(path) => (Some(path), covers(&path, &SIX[1..]), rest(&path, KeyId(1))),
        None => (None, false, None),
    }
}

#[test]
fn behind_six_keys_the_path_stays_open(rt: HostRuntime) {
    let path = Path::from_keys(true, &SIX[1..5]);
    assert!(rt; path.is_some());
    assert_eq!(rt; behind_six(), (path, true, None));
}

/// Whether an open path without keys is empty, and whether what lies behind a key in it is that path again.
fn is_left_open() -> Option<(bool, bool)> {
    let path = Path::from_keys(true, &[])?;
    Some((path.is_empty(), rest(&path, KeyId(3)) == Some(path)))
}

#[test]
fn what_lies_behind_an_open_path_without_keys_is_open(rt: HostRuntime) {
    assert_eq!(rt; is_left_open(), Some((true, true)));
    assert_eq!(rt; rest(&Path::empty(), KeyId(3)), None);
}

/// How many keys a path has, where they are 1, 2 and so on.
fn rising_count(path: &Path) -> Option<u32> {
    let mut count: u32 = 0;
    for key in path.keys() {
        count = count.wrapping_add(1);
        if key != KeyId(count) {
            return None;
        }
    }
    Some(count)
}

#[test]
fn keys_come_from_the_first_on(rt: HostRuntime) {
    let path = rising(5);
    assert_eq!(rt; (rising_count(&path), path.len()), (Some(5), 5));
}

#[test]
fn the_number_of_keys_decides_before_the_keys_do(rt: HostRuntime) {
    let five = rising(5);
    let below = [
        cut(KeyId(9), &Path::empty()) < rising(2),
        five < cut(KeyId(2), &rising(4)),
        five < rising(6),
    ];
    assert_eq!(rt; below, [true; 3]);
}
