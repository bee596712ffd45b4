//! Files, and what an independent writer of T.800 Annex I makes of them.

/// The plain file with a profile, two resolutions and two boxes.
pub const EVERYTHING: &str = "front 000000f5 jp2h one given both uuid xml code";

/// A line for each file: what it is to keep, and the file with it.
pub static DRESSED: &str = "\
plain |  | plain
full |  | full
plain | given | front 000000c9 jp2h one given code
plain | capture | front 00000047 jp2h one grey capture code
plain | display | front 00000047 jp2h one grey display code
plain | turned | front 00000059 jp2h one grey returned code
plain | xml uuid no_xml | front 0000002d jp2h one grey xml uuid no_xml code
plain | no_uuid xml xml | front 0000002d jp2h one grey no_uuid xml xml code
plain | uuid both xml given | front 000000f5 jp2h one given both uuid xml code
full | given capture no_xml | front xml 000000ed jp2h one given free capture uuid no_xml code xml
full | srgb | front xml 00000051 jp2h one grey display free uuid code xml
full | capture | front xml 0000005f jp2h one grey vendor free capture uuid code xml
front 00000080 jp2h three ycc profile nine both code | grey | front 00000072 jp2h three srgb nine both code
front 00000080 jp2h three ycc profile nine both code | display xml | front 00000055 jp2h three ycc profile display xml code
front 00000028 jp2h three two_bytes header free code header | given_rgb uuid | front 00000125 jp2h three given_rgb header free uuid code header
front free 00000001 jp2h 0000000000000026 one 00000000 6a703263 ff4f | long_grey no_grid capture | front free 00000001 jp2h 000000000000004f one grey capture 00000000 6a703263 ff4f
front header fifteen code code open_xml | precedent long_display long_uuid open_xml | front 00000047 jp2h one grey 0000001a72657320 0000001272657364 0102030405060708fffe fifteen 0000001a uuid_ id 6162 0000000c xml_ 3c622f3e code code open_xml";

/// A line for each file: what it can't be given, and why.
pub static NOT_DRESSED: &str = "\
ff4f ||BadParameters
ff4f | xml|BadParameters
ff | profile|Truncated
plain | profile|BadParameters
front 0000001e jp2h three code | given|BadParameters
plain | given_rgb|BadParameters
front 0000001e jp2h two code | grey|BadParameters
front header free | profile|BadBox
plain 00 | profile|Truncated";

/// A line for boxes that say nothing that a file can keep, and why.
pub static NOT_READ: &str = "\
grey srgb|BadBox
given grey|BadBox
capture display|BadBox
free|BadBox
xml code|BadBox
no_method|BadBox
two_bytes|BadBox
short|BadBox
long|BadBox
no_profile|BadBox
nine|BadBox
eleven|BadBox
fifteen|BadBox
ycc|BadParameters
large|BadParameters
method_0|BadParameters
vendor|BadParameters
zero_2|BadValue
zero_3|BadValue
cut|Truncated
open_grid|Truncated
seven|BadBox
xml 00|Truncated
0000000d xml_ 3c612f3e|Truncated
00000007 xml_|BadBox
00000001 xml_ 000000000000000f|BadBox
ycc zero_1|BadParameters
zero_1 ycc|BadValue
fifteen 00|BadBox";

/// A line for each file, and what it keeps as boxes.
pub static TEXTS: &str = "\
plain | grey
front header code | 
ff4f xml | 
front 00000051 jp2h one vendor long_profile grey code | profile
front 00000061 jp2h three ycc no_grid both code | ycc
front 00000052 jp2h one long_display code | 0000001a72657320 0000001272657364 0102030405060708fffe
front no_xml 00000059 jp2h one turned precedent long_uuid code uuid open_xml | srgb returned no_xml long_uuid uuid open_xml
full | grey display xml uuid xml
front 000000f5 jp2h one given both uuid xml code | given both uuid xml";

/// A line for each file, and why what it keeps isn't told.
pub static NOT_TOLD: &str = "\
front header fifteen code|BadBox
front 00000038 jp2h one zero_1 fifteen code|BadValue
front header code xml 00|Truncated";
