//! The guide's scripts, by every byte of their replies.

use crate::running::run;
use pk_run::Status;
use std::test::Fail;

// The scripts of the guide for people who clean and merge records, as they stand in examples/, and their replies.
const MERGE: &[u8] = b"-- The members of a club, from two lists. Parts are missing in both.
CREATE TABLE members (name TEXT NOT NULL, born INT, city TEXT, CERTAIN KEY (name, born));

-- The first list.
INSERT INTO members VALUES
  ('Ann Lee', 1980, 'Bern'),
  ('Bo Rey', NULL, 'Basel'),
  ('Cy Orr', 1975, NULL);

-- The second list, one by one.
INSERT INTO members VALUES ('Ann Lee', 1991, 'Thun');
INSERT INTO members VALUES ('Bo Rey', 1968, NULL);
INSERT INTO members VALUES ('Cy Orr', NULL, 'Chur');

-- Both that were refused are the same persons: what the second list knows of them is put to their rows.
UPDATE members SET born = 1968 WHERE name = 'Bo Rey' AND born IS NULL;
UPDATE members SET city = 'Chur' WHERE name = 'Cy Orr' AND city IS NULL;
SELECT * FROM members ORDER BY name, born;
";

const MERGE_REPLIES: &[u8] = b"created members
inserted 3
inserted 1
refused: certain key 1 of members: rows 2 and 5 agree in the completion ('Bo Rey', 1968)
refused: certain key 1 of members: rows 3 and 5 agree in the completion ('Cy Orr', 1975)
updated 1
updated 1
name|born|city
'Ann Lee'|1980|'Bern'
'Ann Lee'|1991|'Thun'
'Bo Rey'|1968|'Basel'
'Cy Orr'|1975|'Chur'
rows 4
";

const REGISTRY: &[u8] = b"-- A registry of devices. What isn't known is NULL.
CREATE TABLE devices (serial VARCHAR(12), owner TEXT, room INT, CERTAIN KEY (serial, owner));
INSERT INTO devices VALUES
  ('A-100', 'lab', 12),
  (NULL, 'office', 3),
  ('A-101', 'hall', NULL);

-- No row has the values of these, and yet each may be a device that is there already.
INSERT INTO devices VALUES (NULL, 'lab', 12);
INSERT INTO devices VALUES ('A-200', 'office', NULL);
INSERT INTO devices VALUES ('A-101', NULL, 7);

-- This one is another, whatever the nulls stand for.
INSERT INTO devices VALUES ('A-102', 'lab', 14);

-- Once the serial of the office's device is known, the second one can come in.
UPDATE devices SET serial = 'A-050' WHERE owner = 'office';
INSERT INTO devices VALUES ('A-200', 'office', NULL);
SELECT serial, owner FROM devices ORDER BY owner, serial;
";

const REGISTRY_REPLIES: &[u8] = b"created devices
inserted 3
refused: certain key 1 of devices: rows 1 and 4 agree in the completion ('A-100', 'lab')
refused: certain key 1 of devices: rows 2 and 4 agree in the completion ('A-200', 'office')
refused: certain key 1 of devices: rows 2 and 4 agree in the completion ('A-101', 'office')
inserted 1
updated 1
inserted 1
serial|owner
'A-101'|'hall'
'A-100'|'lab'
'A-102'|'lab'
'A-050'|'office'
'A-200'|'office'
rows 5
";

const UNIQUE: &[u8] =
    b"-- The same rows under UNIQUE, which is a possible key, and under a certain key.
CREATE TABLE loose (serial VARCHAR(12), owner TEXT, UNIQUE (serial, owner));
CREATE TABLE strict (serial VARCHAR(12), owner TEXT, CERTAIN KEY (serial, owner));
SHOW CREATE TABLE loose;
INSERT INTO loose VALUES ('A-100', NULL), ('A-100', NULL), (NULL, 'lab');
INSERT INTO strict VALUES ('A-100', NULL), ('A-100', NULL), (NULL, 'lab');

-- UNIQUE refuses only what is equal already, with every part known.
INSERT INTO loose VALUES ('A-100', 'lab'), ('A-100', 'lab');
SELECT COUNT(*) FROM loose;
SELECT COUNT(*) FROM strict;
";

const UNIQUE_REPLIES: &[u8] = b"created loose
created strict
CREATE TABLE loose (serial VARCHAR(12), owner TEXT, POSSIBLE KEY (serial, owner));
inserted 3
refused: certain key 1 of strict: rows 1 and 2 agree in the completion ('A-100', '')
refused: possible key 1 of loose: rows 4 and 5 agree on ('A-100', 'lab')
count
3
rows 1
count
0
rows 1
";

const DESIGN: &[u8] = b"-- Members of a club once more. What do its keys promise?
CREATE TABLE members (number INT NOT NULL UNIQUE, name TEXT NOT NULL, born INT, mail TEXT UNIQUE, CERTAIN KEY (name, born));
IMPLIES members CERTAIN KEY (number);
IMPLIES members CERTAIN KEY (mail);
IMPLIES members POSSIBLE KEY (name, mail);
COVER OF members;
";

const DESIGN_REPLIES: &[u8] = b"created members
implied by key 1 by strengthening
not implied: rows (0, '', 0, NULL) and (1, 'a', 1, NULL)
implied by key 2 by extension
CERTAIN KEY (number)
CERTAIN KEY (name, born)
POSSIBLE KEY (mail)
keys 3
";

#[test]
fn the_guide_is_answered(rt: HostRuntime) -> Result<(), Fail> {
    for (script, status, told) in [
        (MERGE, Status::Refused, MERGE_REPLIES),
        (REGISTRY, Status::Refused, REGISTRY_REPLIES),
        (UNIQUE, Status::Refused, UNIQUE_REPLIES),
        (DESIGN, Status::Done, DESIGN_REPLIES),
    ] {
        let got = run(rt.alloc(), script, 4096, &[], &[])?;
        assert_eq!(rt; got.0, status);
        assert_eq!(rt; got.1.as_slice(), told);
    }
    Ok(())
}
