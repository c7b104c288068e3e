//! The plural rules of every language, made by tools/plural-rules.

/// The text of `data/plurals.txt`.
pub(crate) const PLURALS: &str = "\
# Plural rules from the Unicode CLDR, version 41: language tag, cardinal rules, ordinal rules.
# Made by tools/plural-rules. Copyright 1991-2022 Unicode, Inc., licence Unicode-DFS-2016 (see NOTICE).
af\tone: n = 1; other:\tother:
ak\tone: n = 0..1; other:\tother:
am\tone: i = 0 or n = 1; other:\tother:
an\tone: n = 1; other:\tother:
ar\tzero: n = 0; one: n = 1; two: n = 2; few: n % 100 = 3..10; many: n % 100 = 11..99; other:\tother:
ars\tzero: n = 0; one: n = 1; two: n = 2; few: n % 100 = 3..10; many: n % 100 = 11..99; other:\tother:
as\tone: i = 0 or n = 1; other:\tone: n = 1,5,7,8,9,10; two: n = 2,3; few: n = 4; many: n = 6; other:
asa\tone: n = 1; other:\tother:
ast\tone: i = 1 and v = 0; other:\tother:
az\tone: n = 1; other:\tone: i % 10 = 1,2,5,7,8 or i % 100 = 20,50,70,80; few: i % 10 = 3,4 or i % 1000 = 100,200,300,400,500,600,700,800,900; many: i = 0 or i % 10 = 6 or i % 100 = 40,60,90; other:
bal\tone: n = 1; other:\tone: n = 1; other:
be\tone: n % 10 = 1 and n % 100 != 11; few: n % 10 = 2..4 and n % 100 != 12..14; many: n % 10 = 0 or n % 10 = 5..9 or n % 100 = 11..14; other:\tfew: n % 10 = 2,3 and n % 100 != 12,13; other:
bem\tone: n = 1; other:\tother:
bez\tone: n = 1; other:\tother:
bg\tone: n = 1; other:\tother:
bho\tone: n = 0..1; other:\tother:
bm\tother:\tother:
bn\tone: i = 0 or n = 1; other:\tone: n = 1,5,7,8,9,10; two: n = 2,3; few: n = 4; many: n = 6; other:
bo\tother:\tother:
br\tone: n % 10 = 1 and n % 100 != 11,71,91; two: n % 10 = 2 and n % 100 != 12,72,92; few: n % 10 = 3..4,9 and n % 100 != 10..19,70..79,90..99; many: n != 0 and n % 1000000 = 0; other:\tother:
brx\tone: n = 1; other:\tother:
bs\tone: v = 0 and i % 10 = 1 and i % 100 != 11 or f % 10 = 1 and f % 100 != 11; few: v = 0 and i % 10 = 2..4 and i % 100 != 12..14 or f % 10 = 2..4 and f % 100 != 12..14; other:\tother:
ca\tone: i = 1 and v = 0; other:\tone: n = 1,3; two: n = 2; few: n = 4; other:
ce\tone: n = 1; other:\tother:
ceb\tone: v = 0 and i = 1,2,3 or v = 0 and i % 10 != 4,6,9 or v != 0 and f % 10 != 4,6,9; other:\tother:
cgg\tone: n = 1; other:\tother:
chr\tone: n = 1; other:\tother:
ckb\tone: n = 1; other:\tother:
cs\tone: i = 1 and v = 0; few: i = 2..4 and v = 0; many: v != 0; other:\tother:
cy\tzero: n = 0; one: n = 1; two: n = 2; few: n = 3; many: n = 6; other:\tzero: n = 0,7,8,9; one: n = 1; two: n = 2; few: n = 3,4; many: n = 5,6; other:
da\tone: n = 1 or t != 0 and i = 0,1; other:\tother:
de\tone: i = 1 and v = 0; other:\tother:
doi\tone: i = 0 or n = 1; other:\tother:
dsb\tone: v = 0 and i % 100 = 1 or f % 100 = 1; two: v = 0 and i % 100 = 2 or f % 100 = 2; few: v = 0 and i % 100 = 3..4 or f % 100 = 3..4; other:\tother:
dv\tone: n = 1; other:\tother:
dz\tother:\tother:
ee\tone: n = 1; other:\tother:
el\tone: n = 1; other:\tother:
en\tone: i = 1 and v = 0; other:\tone: n % 10 = 1 and n % 100 != 11; two: n % 10 = 2 and n % 100 != 12; few: n % 10 = 3 and n % 100 != 13; other:
eo\tone: n = 1; other:\tother:
es\tone: n = 1; many: e = 0 and i != 0 and i % 1000000 = 0 and v = 0 or e != 0..5; other:\tother:
et\tone: i = 1 and v = 0; other:\tother:
eu\tone: n = 1; other:\tother:
fa\tone: i = 0 or n = 1; other:\tother:
ff\tone: i = 0,1; other:\tother:
fi\tone: i = 1 and v = 0; other:\tother:
fil\tone: v = 0 and i = 1,2,3 or v = 0 and i % 10 != 4,6,9 or v != 0 and f % 10 != 4,6,9; other:\tone: n = 1; other:
fo\tone: n = 1; other:\tother:
fr\tone: i = 0,1; many: e = 0 and i != 0 and i % 1000000 = 0 and v = 0 or e != 0..5; other:\tone: n = 1; other:
fur\tone: n = 1; other:\tother:
fy\tone: i = 1 and v = 0; other:\tother:
ga\tone: n = 1; two: n = 2; few: n = 3..6; many: n = 7..10; other:\tone: n = 1; other:
gd\tone: n = 1,11; two: n = 2,12; few: n = 3..10,13..19; other:\tone: n = 1,11; two: n = 2,12; few: n = 3,13; other:
gl\tone: i = 1 and v = 0; other:\tother:
gsw\tone: n = 1; other:\tother:
gu\tone: i = 0 or n = 1; other:\tone: n = 1; two: n = 2,3; few: n = 4; many: n = 6; other:
guw\tone: n = 0..1; other:\tother:
gv\tone: v = 0 and i % 10 = 1; two: v = 0 and i % 10 = 2; few: v = 0 and i % 100 = 0,20,40,60,80; many: v != 0; other:\tother:
ha\tone: n = 1; other:\tother:
haw\tone: n = 1; other:\tother:
he\tone: i = 1 and v = 0; two: i = 2 and v = 0; many: v = 0 and n != 0..10 and n % 10 = 0; other:\tother:
hi\tone: i = 0 or n = 1; other:\tone: n = 1; two: n = 2,3; few: n = 4; many: n = 6; other:
hnj\tother:\tother:
hr\tone: v = 0 and i % 10 = 1 and i % 100 != 11 or f % 10 = 1 and f % 100 != 11; few: v = 0 and i % 10 = 2..4 and i % 100 != 12..14 or f % 10 = 2..4 and f % 100 != 12..14; other:\tother:
hsb\tone: v = 0 and i % 100 = 1 or f % 100 = 1; two: v = 0 and i % 100 = 2 or f % 100 = 2; few: v = 0 and i % 100 = 3..4 or f % 100 = 3..4; other:\tother:
hu\tone: n = 1; other:\tone: n = 1,5; other:
hy\tone: i = 0,1; other:\tone: n = 1; other:
ia\tone: i = 1 and v = 0; other:\tother:
id\tother:\tother:
ig\tother:\tother:
ii\tother:\tother:
in\tother:\tother:
io\tone: i = 1 and v = 0; other:\tother:
is\tone: t = 0 and i % 10 = 1 and i % 100 != 11 or t != 0; other:\tother:
it\tone: i = 1 and v = 0; many: e = 0 and i != 0 and i % 1000000 = 0 and v = 0 or e != 0..5; other:\tmany: n = 11,8,80,800; other:
iu\tone: n = 1; two: n = 2; other:\tother:
iw\tone: i = 1 and v = 0; two: i = 2 and v = 0; many: v = 0 and n != 0..10 and n % 10 = 0; other:\tother:
ja\tother:\tother:
jbo\tother:\tother:
jgo\tone: n = 1; other:\tother:
ji\tone: i = 1 and v = 0; other:\tother:
jmc\tone: n = 1; other:\tother:
jv\tother:\tother:
jw\tother:\tother:
ka\tone: n = 1; other:\tone: i = 1; many: i = 0 or i % 100 = 2..20,40,60,80; other:
kab\tone: i = 0,1; other:\tother:
kaj\tone: n = 1; other:\tother:
kcg\tone: n = 1; other:\tother:
kde\tother:\tother:
kea\tother:\tother:
kk\tone: n = 1; other:\tmany: n % 10 = 6 or n % 10 = 9 or n % 10 = 0 and n != 0; other:
kkj\tone: n = 1; other:\tother:
kl\tone: n = 1; other:\tother:
km\tother:\tother:
kn\tone: i = 0 or n = 1; other:\tother:
ko\tother:\tother:
ks\tone: n = 1; other:\tother:
ksb\tone: n = 1; other:\tother:
ksh\tzero: n = 0; one: n = 1; other:\tother:
ku\tone: n = 1; other:\tother:
kw\tzero: n = 0; one: n = 1; two: n % 100 = 2,22,42,62,82 or n % 1000 = 0 and n % 100000 = 1000..20000,40000,60000,80000 or n != 0 and n % 1000000 = 100000; few: n % 100 = 3,23,43,63,83; many: n != 1 and n % 100 = 1,21,41,61,81; other:\tone: n = 1..4 or n % 100 = 1..4,21..24,41..44,61..64,81..84; many: n = 5 or n % 100 = 5; other:
ky\tone: n = 1; other:\tother:
lag\tzero: n = 0; one: i = 0,1 and n != 0; other:\tother:
lb\tone: n = 1; other:\tother:
lg\tone: n = 1; other:\tother:
lij\tone: i = 1 and v = 0; other:\tmany: n = 11,8,80..89,800..899; other:
lkt\tother:\tother:
ln\tone: n = 0..1; other:\tother:
lo\tother:\tone: n = 1; other:
lt\tone: n % 10 = 1 and n % 100 != 11..19; few: n % 10 = 2..9 and n % 100 != 11..19; many: f != 0; other:\tother:
lv\tzero: n % 10 = 0 or n % 100 = 11..19 or v = 2 and f % 100 = 11..19; one: n % 10 = 1 and n % 100 != 11 or v = 2 and f % 10 = 1 and f % 100 != 11 or v != 2 and f % 10 = 1; other:\tother:
mas\tone: n = 1; other:\tother:
mg\tone: n = 0..1; other:\tother:
mgo\tone: n = 1; other:\tother:
mk\tone: v = 0 and i % 10 = 1 and i % 100 != 11 or f % 10 = 1 and f % 100 != 11; other:\tone: i % 10 = 1 and i % 100 != 11; two: i % 10 = 2 and i % 100 != 12; many: i % 10 = 7,8 and i % 100 != 17,18; other:
ml\tone: n = 1; other:\tother:
mn\tone: n = 1; other:\tother:
mo\tone: i = 1 and v = 0; few: v != 0 or n = 0 or n % 100 = 2..19; other:\tone: n = 1; other:
mr\tone: n = 1; other:\tone: n = 1; two: n = 2,3; few: n = 4; other:
ms\tother:\tone: n = 1; other:
mt\tone: n = 1; few: n = 0 or n % 100 = 2..10; many: n % 100 = 11..19; other:\tother:
my\tother:\tother:
nah\tone: n = 1; other:\tother:
naq\tone: n = 1; two: n = 2; other:\tother:
nb\tone: n = 1; other:\tother:
nd\tone: n = 1; other:\tother:
ne\tone: n = 1; other:\tone: n = 1..4; other:
nl\tone: i = 1 and v = 0; other:\tother:
nn\tone: n = 1; other:\tother:
nnh\tone: n = 1; other:\tother:
no\tone: n = 1; other:\tother:
nqo\tother:\tother:
nr\tone: n = 1; other:\tother:
nso\tone: n = 0..1; other:\tother:
ny\tone: n = 1; other:\tother:
nyn\tone: n = 1; other:\tother:
om\tone: n = 1; other:\tother:
or\tone: n = 1; other:\tone: n = 1,5,7..9; two: n = 2,3; few: n = 4; many: n = 6; other:
os\tone: n = 1; other:\tother:
osa\tother:\tother:
pa\tone: n = 0..1; other:\tother:
pap\tone: n = 1; other:\tother:
pcm\tone: i = 0 or n = 1; other:\tother:
pl\tone: i = 1 and v = 0; few: v = 0 and i % 10 = 2..4 and i % 100 != 12..14; many: v = 0 and i != 1 and i % 10 = 0..1 or v = 0 and i % 10 = 5..9 or v = 0 and i % 100 = 12..14; other:\tother:
prg\tzero: n % 10 = 0 or n % 100 = 11..19 or v = 2 and f % 100 = 11..19; one: n % 10 = 1 and n % 100 != 11 or v = 2 and f % 10 = 1 and f % 100 != 11 or v != 2 and f % 10 = 1; other:\tother:
ps\tone: n = 1; other:\tother:
pt\tone: i = 0..1; many: e = 0 and i != 0 and i % 1000000 = 0 and v = 0 or e != 0..5; other:\tother:
pt-PT\tone: i = 1 and v = 0; many: e = 0 and i != 0 and i % 1000000 = 0 and v = 0 or e != 0..5; other:\tother:
rm\tone: n = 1; other:\tother:
ro\tone: i = 1 and v = 0; few: v != 0 or n = 0 or n % 100 = 2..19; other:\tone: n = 1; other:
rof\tone: n = 1; other:\tother:
ru\tone: v = 0 and i % 10 = 1 and i % 100 != 11; few: v = 0 and i % 10 = 2..4 and i % 100 != 12..14; many: v = 0 and i % 10 = 0 or v = 0 and i % 10 = 5..9 or v = 0 and i % 100 = 11..14; other:\tother:
rwk\tone: n = 1; other:\tother:
sah\tother:\tother:
saq\tone: n = 1; other:\tother:
sat\tone: n = 1; two: n = 2; other:\tother:
sc\tone: i = 1 and v = 0; other:\tmany: n = 11,8,80,800; other:
scn\tone: i = 1 and v = 0; other:\tmany: n = 11,8,80,800; other:
sd\tone: n = 1; other:\tother:
sdh\tone: n = 1; other:\tother:
se\tone: n = 1; two: n = 2; other:\tother:
seh\tone: n = 1; other:\tother:
ses\tother:\tother:
sg\tother:\tother:
sh\tone: v = 0 and i % 10 = 1 and i % 100 != 11 or f % 10 = 1 and f % 100 != 11; few: v = 0 and i % 10 = 2..4 and i % 100 != 12..14 or f % 10 = 2..4 and f % 100 != 12..14; other:\tother:
shi\tone: i = 0 or n = 1; few: n = 2..10; other:\tother:
si\tone: n = 0,1 or i = 0 and f = 1; other:\tother:
sk\tone: i = 1 and v = 0; few: i = 2..4 and v = 0; many: v != 0; other:\tother:
sl\tone: v = 0 and i % 100 = 1; two: v = 0 and i % 100 = 2; few: v = 0 and i % 100 = 3..4 or v != 0; other:\tother:
sma\tone: n = 1; two: n = 2; other:\tother:
smi\tone: n = 1; two: n = 2; other:\tother:
smj\tone: n = 1; two: n = 2; other:\tother:
smn\tone: n = 1; two: n = 2; other:\tother:
sms\tone: n = 1; two: n = 2; other:\tother:
sn\tone: n = 1; other:\tother:
so\tone: n = 1; other:\tother:
sq\tone: n = 1; other:\tone: n = 1; many: n % 10 = 4 and n % 100 != 14; other:
sr\tone: v = 0 and i % 10 = 1 and i % 100 != 11 or f % 10 = 1 and f % 100 != 11; few: v = 0 and i % 10 = 2..4 and i % 100 != 12..14 or f % 10 = 2..4 and f % 100 != 12..14; other:\tother:
ss\tone: n = 1; other:\tother:
ssy\tone: n = 1; other:\tother:
st\tone: n = 1; other:\tother:
su\tother:\tother:
sv\tone: i = 1 and v = 0; other:\tone: n % 10 = 1,2 and n % 100 != 11,12; other:
sw\tone: i = 1 and v = 0; other:\tother:
syr\tone: n = 1; other:\tother:
ta\tone: n = 1; other:\tother:
te\tone: n = 1; other:\tother:
teo\tone: n = 1; other:\tother:
th\tother:\tother:
ti\tone: n = 0..1; other:\tother:
tig\tone: n = 1; other:\tother:
tk\tone: n = 1; other:\tfew: n % 10 = 6,9 or n = 10; other:
tl\tone: v = 0 and i = 1,2,3 or v = 0 and i % 10 != 4,6,9 or v != 0 and f % 10 != 4,6,9; other:\tone: n = 1; other:
tn\tone: n = 1; other:\tother:
to\tother:\tother:
tpi\tother:\tother:
tr\tone: n = 1; other:\tother:
ts\tone: n = 1; other:\tother:
tzm\tone: n = 0..1 or n = 11..99; other:\tother:
ug\tone: n = 1; other:\tother:
uk\tone: v = 0 and i % 10 = 1 and i % 100 != 11; few: v = 0 and i % 10 = 2..4 and i % 100 != 12..14; many: v = 0 and i % 10 = 0 or v = 0 and i % 10 = 5..9 or v = 0 and i % 100 = 11..14; other:\tfew: n % 10 = 3 and n % 100 != 13; other:
und\tother:\tother:
ur\tone: i = 1 and v = 0; other:\tother:
uz\tone: n = 1; other:\tother:
ve\tone: n = 1; other:\tother:
vi\tother:\tone: n = 1; other:
vo\tone: n = 1; other:\tother:
vun\tone: n = 1; other:\tother:
wa\tone: n = 0..1; other:\tother:
wae\tone: n = 1; other:\tother:
wo\tother:\tother:
xh\tone: n = 1; other:\tother:
xog\tone: n = 1; other:\tother:
yi\tone: i = 1 and v = 0; other:\tother:
yo\tother:\tother:
yue\tother:\tother:
zh\tother:\tother:
zu\tone: i = 0 or n = 1; other:\tother:
";
