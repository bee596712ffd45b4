//! Files, and what an independent reader of T.800 Annex I tells of them.

/// A line for each file: boxes of a JP2 header box behind the image header box, and what is told: the
/// colour, and the resolutions of capture and of display by their names; or the fault.
pub static TOLD: &str = "\
|Nothing none none
grey|Enumerated(17) none none
srgb|Enumerated(16) none none
ycc|Enumerated(18) none none
precedent|Enumerated(16) none none
large|Enumerated(4294967295) none none
long_grey|Enumerated(17) none none
profile|Profile(73, 76) none none
long_profile|Profile(81, 84) none none
free profile|Profile(83, 86) none none
vendor|Nothing none none
method_0|Nothing none none
method_255|Nothing none none
grey profile|Enumerated(17) none none
profile grey|Profile(73, 76) none none
vendor profile|Profile(87, 90) none none
method_0 srgb ycc|Enumerated(16) none none
capture|Nothing fine none
display|Nothing none wide
both|Nothing fine wide
turned|Nothing wide near
twice|Nothing near none
long_display|Nothing none near
asoc|Nothing none none
no_grid|Nothing none none
no_grid both|Nothing none none
capture display|Nothing fine none
capture zero_1|Nothing fine none
capture grey|Enumerated(17) fine none
grey both profile|Enumerated(17) fine wide
no_method|BadBox
two_bytes|BadBox
short|BadBox
long|BadBox
no_profile|BadBox
profile no_profile|Profile(73, 76) none none
vendor two_bytes|BadBox
method_0 short|BadBox
nine|BadBox
eleven|BadBox
zero_1|BadValue
zero_2|BadValue
zero_3|BadValue
zero_4|BadValue
cut|Truncated
cut_head|Truncated
open_grid|Truncated
seven|BadBox
xl_of_15|BadBox
short zero_1|BadBox
zero_1 short|BadValue
cut no_profile|Truncated
both long|BadBox";

/// A line for each file, and what is told.
pub static FILES: &str = "\
front 0000002d jp2h one grey 0000002c jp2h one profile code|Enumerated(17) none none
front header 0000002c jp2h one profile code|Nothing none none
front free 00000001 jp2h 0000000000000034 one profile code|Profile(91, 94) none none
front header grey capture code profile|Nothing none none
front 00000038 jp2h one zero_1 code 00000009|Truncated
front 00000038 jp2h one zero_1|BadBox
front 00000038 jp2h one zero_1 code fifteen|BadValue
front header code fifteen|Nothing none none";

/// A line for each file, and what its boxes of XML and under UUIDs hold behind their kinds. First what
/// boxes there may be, then what ExifTool appends, Photoshop and GDAL.
pub static OTHERS: &str = "\
front header code |
front header xml code | xml_ 3c612f3e
front header uuid code | uuid_ id 616263
front header code xml | xml_ 3c612f3e
front header code uuid | uuid_ id 616263
front xml header uuid code uuid xml | xml_ 3c612f3e uuid_ id 616263 uuid_ id 616263 xml_ 3c612f3e
front header long_xml long_uuid code | xml_ 3c612f3e uuid_ id 6162
front header code long_uuid open_xml | uuid_ id 6162 xml_ 3c622f3e
front header code xml open_uuid | xml_ 3c612f3e uuid_ id 64
front header no_xml no_uuid code no_xml | xml_ uuid_ id xml_
front free 0000002c jp2h one profile free xml free code free uuid free | xml_ 3c612f3e uuid_ id 616263
front 0000002a jp2h one xml 00000014 61736f63 xml code no_xml | xml_
front header xml code code xml | xml_ 3c612f3e xml_ 3c612f3e
front header fifteen code | bad_box
front xml header code uuid fifteen xml | xml_ 3c612f3e uuid_ id 616263 bad_box
ff4f xml uuid |
front header code 0000003d uuid_ xmp_id xmp_text 00000032 uuid_ exif_id exif_ii 00000021 uuid_ iptc_id iim | uuid_ xmp_id xmp_text uuid_ exif_id exif_ii uuid_ iptc_id iim
front header code 00000032 uuid_ exif_id exif_mm | uuid_ exif_id exif_mm
front header 0000002e uuid_ psir_id psir 00000032 uuid_ psexif_id exif_mm 0000003d uuid_ xmp_id xmp_text code | uuid_ psir_id psir uuid_ psexif_id exif_mm uuid_ xmp_id xmp_text
front header 00000032 uuid_ geo_id geotiff code | uuid_ geo_id geotiff";
