//! A town of four nodes in a line.

use edge_files::InFile;

/// Links of 3 and 10 seconds from a to b and to c, of 90 from c to d, and of less than one from b back to a, whose holes take 7, 25, 225
/// and 2. A walk of 20 seconds leads from the link that ends at b to the one that ends at d.
pub(crate) static TEXTS: [(InFile, &str); 4] = [
    (InFile::Settings, "{\"hole_speed\":400}"),
    (
        InFile::Nodes,
        "node,x,y\na,0,0\nb,100,0\nc,200,0\nd,300,0\n",
    ),
    (
        InFile::Links,
        "link,from,to,length,speed,capacity,lanes\n\
        L1,a,b,3000,1000,3600,1\nL2,b,c,10000,1000,3600,1\nL3,c,d,90000,1000,3600,1\nL4,b,a,800,1000,3600,1\n",
    ),
    (
        InFile::Plans,
        "person,plan,kind,name,link,time,route\n\
        p1,0,act,home,L1,100,\np1,0,leg,walk,,20,\np1,0,act,work,L3,,\n",
    ),
];
